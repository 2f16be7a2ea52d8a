//! Which coupling faults nothing shows.

ghost use Rattle.std.specs.Prelude.{◌≡◌, ◌<◌};
ghost use Rattle.mt_plan.specs.Plan.{steps_of};
ghost use Rattle.mt_locate.specs.Probes.{IsAcceptedProbe};
ghost use Rattle.mt_locate.specs.Moved.{IsFaultOfSlice};
ghost use Rattle.mt_locate.specs.Lanes.{fault_of, lane, stays_unseen, treated};
ghost use Rattle.mt_locate.specs.Inner.Lanes.{AreTables, IsTable, rows_of};

use crate::disturbance::Disturbance;
use crate::lanes::{Means, unseen};
use crate::probe::Probe;
use arrayvec::ArrayVec;
use mt_plan::Step;
use mt_word::bit;

/// For each pair of cells the lanes that go unseen, aggressor after aggressor.
type Table = ArrayVec<u64, 256>;

/// The tables of the three kinds of coupling faults.
#[derive(Drop)]
pub struct Unseen {
    pub invert: Table,
    pub force: Table,
    pub state: Table,
}

/// The table of one kind.
fn table(probe: &Probe, steps: &[Step], means: Means) -> Table
    requires accepted { IsAcceptedProbe probe.now }
    requires steps { steps.now ≡ steps_of probe.now.alg probe.now.n }
    ensures { IsTable probe.now means result.items }
{
    let n = u32::from(probe.n);
    let mut rows = ArrayVec::new();
    for k in 0..n * n {
        rows.push(unseen(steps, means, k / n, k % n));
    }
    rows
}

/// The tables of a probe.
pub fn tables(probe: &Probe, steps: &[Step]) -> Unseen
    requires accepted { IsAcceptedProbe probe.now }
    requires steps { steps.now ≡ steps_of probe.now.alg probe.now.n }
    ensures { AreTables probe.now result }
{
    Unseen {
        invert: table(probe, steps, Means::Invert),
        force: table(probe, steps, Means::Force),
        state: table(probe, steps, Means::State),
    }
}

/// The bit of a row that stands for a fault's class.
fn lane(probe: &Probe, fault: Disturbance) -> u8
    requires agg { fault.agg.bit < 64 }
    requires vic { fault.vic.bit < 64 }
    ensures { result ≡ lane fault.side fault.value (treated probe.now fault.agg.bit) (treated probe.now fault.vic.bit) }
{
    32 * fault.side as u8
        + 16 * fault.value as u8
        + 8 * bit(probe.background, fault.agg.bit) as u8
        + 4 * bit(probe.initial, fault.agg.bit) as u8
        + 2 * bit(probe.background, fault.vic.bit) as u8
        + bit(probe.initial, fault.vic.bit) as u8
}

/// The rows of one kind.
fn rows_of(unseen: &Unseen, means: Means) -> &[u64]
    ensures { result.now ≡ rows_of unseen.now means }
{
    match means {
        Means::Invert => &unseen.invert,
        Means::Force => &unseen.force,
        Means::State => &unseen.state,
    }
}

/// Whether a coupling fault goes unseen.
pub fn stays_unseen(unseen: &Unseen, probe: &Probe, fault: Disturbance) -> bool
    requires accepted { IsAcceptedProbe probe.now }
    requires tables { AreTables probe.now unseen.now }
    requires inside { IsFaultOfSlice probe.now.width probe.now.first probe.now.n (fault_of fault) }
    ensures { result ≡ stays_unseen probe.now fault }
{
    let agg = fault.agg.word - probe.first;
    let vic = fault.vic.word - probe.first;
    let row = rows_of(unseen, fault.means)[(agg * u32::from(probe.n) + vic) as usize];
    bit(row, lane(probe, fault))
}
