//! Words that stand for a slice.

ghost use Rattle.std.specs.Prelude.{◌≡◌, IfOk};
ghost use Rattle.mt_locate.specs.Probes.{IsAcceptedProbe, scratch_of};

use crate::probe::Probe;
use mt_fault::Cells;
use mt_word::NoMemory;
use std::alloc::Global;

/// Words that stand for the slice of a probe.
pub fn scratch(alloc: Global, probe: &Probe) -> Result<Cells, NoMemory>
    requires accepted { IsAcceptedProbe probe.now }
    ensures words { IfOk result (λ m. m ≡ scratch_of probe.now) }
{
    Cells::new(alloc, probe.width, u32::from(probe.n), probe.initial)
}
