//! The faults of a slice, place after place.

ghost use Rattle.std.specs.Prelude.{◌≡◌, ◌<◌, ◌+◌, ◌*◌};
ghost use Rattle.std.specs.List.{AllByRecursion};
ghost use Rattle.mt_word.specs.Word.{width_bits};
ghost use Rattle.mt_fault.specs.Placement.{IsWithin};
ghost use Rattle.mt_locate.specs.Probes.{IsAcceptedProbe};
ghost use Rattle.mt_locate.specs.Moved.{IsFaultOfSlice};
ghost use Rattle.mt_locate.specs.Listed.{spot_at, on_bit, coupled, crossed};
ghost use Rattle.mt_locate.specs.Inner.Places.{IsSpotOfSlice, faults_in};

use crate::kinds::{Coupling, OfBit, OfCells};
use crate::probe::Probe;
use mt_fault::{Fault, Spot};
use mt_word::bits;

/// Faults that differ at most in a bit's value or in how two cells are wired.
#[derive(Clone, Copy)]
pub enum Few {
    None,
    One(Fault),
    Two(Fault, Fault),
}

/// How many bits the slice has.
pub fn bit_count(probe: &Probe) -> u32
    requires { IsAcceptedProbe probe.now }
    ensures { result ≡ probe.now.n * width_bits probe.now.width }
{
    u32::from(probe.n) * bits(probe.width)
}

/// A bit of the slice, counted from the least one of its first word.
pub fn spot_at(probe: &Probe, k: u32) -> Spot
    requires accepted { IsAcceptedProbe probe.now }
    requires below { k < probe.now.n * width_bits probe.now.width }
    ensures spot { result ≡ spot_at probe.now.width probe.now.first k }
    ensures inside { IsSpotOfSlice probe.now result }
{
    let width = bits(probe.width);
    Spot {
        word: probe.first + k / width,
        bit: (k % width) as u8,
    }
}

/// The faults of a bit, of one kind.
pub fn on_bit(probe: &Probe, kind: OfBit, vic: Spot) -> Few
    requires { IsSpotOfSlice probe.now vic }
    ensures faults { faults_in result ≡ on_bit kind vic }
    ensures inside { AllByRecursion (IsFaultOfSlice probe.now.width probe.now.first probe.now.n) (faults_in result) }
{
    match kind {
        OfBit::StuckAt => Few::Two(
            Fault::StuckAt { vic, value: false },
            Fault::StuckAt { vic, value: true },
        ),
        OfBit::CannotRise => Few::One(Fault::CannotRise { vic }),
        OfBit::CannotFall => Few::One(Fault::CannotFall { vic }),
    }
}

/// The coupling faults of two bits, of one kind; none where they lie in one word.
pub fn coupled(probe: &Probe, kind: Coupling, agg: Spot, vic: Spot) -> Few
    requires agg { IsSpotOfSlice probe.now agg }
    requires vic { IsSpotOfSlice probe.now vic }
    ensures faults { faults_in result ≡ coupled kind agg vic }
    ensures inside { AllByRecursion (IsFaultOfSlice probe.now.width probe.now.first probe.now.n) (faults_in result) }
{
    if vic.word == agg.word {
        return Few::None;
    }
    match kind {
        Coupling::Invert { rise } => Few::One(Fault::Invert { agg, rise, vic }),
        Coupling::Force { rise } => {
            let value = false;
            let forced = Fault::Force {
                agg,
                rise,
                vic,
                value,
            };
            let value = true;
            Few::Two(
                forced,
                Fault::Force {
                    agg,
                    rise,
                    vic,
                    value,
                },
            )
        }
        Coupling::State { holds } => {
            let value = false;
            let held = Fault::State {
                agg,
                holds,
                vic,
                value,
            };
            let value = true;
            Few::Two(
                held,
                Fault::State {
                    agg,
                    holds,
                    vic,
                    value,
                },
            )
        }
    }
}

/// The faults of two cells, of one kind; none where they are one.
pub fn crossed(probe: &Probe, kind: OfCells, addr: u32, other: u32) -> Few
    requires addr { IsWithin probe.now.first probe.now.n addr }
    requires other { IsWithin probe.now.first probe.now.n other }
    ensures faults { faults_in result ≡ crossed kind addr other }
    ensures inside { AllByRecursion (IsFaultOfSlice probe.now.width probe.now.first probe.now.n) (faults_in result) }
{
    if other == addr {
        return Few::None;
    }
    match kind {
        OfCells::Also => {
            let wired_and = true;
            let with_and = Fault::Also {
                addr,
                other,
                wired_and,
            };
            let wired_and = false;
            Few::Two(
                with_and,
                Fault::Also {
                    addr,
                    other,
                    wired_and,
                },
            )
        }
        OfCells::Instead => Few::One(Fault::Instead { addr, other }),
    }
}
