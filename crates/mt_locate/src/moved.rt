//! A fault of a slice, as one of the words that stand for the slice.

ghost use Rattle.std.specs.Prelude.{◌≡◌, ◌≤◌};
ghost use Rattle.mt_locate.specs.Moved.{IsFaultOfSlice, moved_down, spot_down};

use crate::probe::Probe;
use mt_fault::{Fault, Spot};

/// The same bit, where words are counted from the slice's first one.
fn spot_down(first: u32, spot: Spot) -> Spot
    requires from { first ≤ spot.word }
    ensures spot { result ≡ spot_down first spot }
{
    Spot {
        word: spot.word - first,
        bit: spot.bit,
    }
}

/// The same fault, where words are counted from the first one of the probe's slice.
pub fn moved_down(probe: &Probe, fault: Fault) -> Fault
    requires inside { IsFaultOfSlice probe.now.width probe.now.first probe.now.n fault }
    ensures fault { result ≡ moved_down probe.now.first fault }
{
    let first = probe.first;
    match fault {
        Fault::StuckAt { vic, value } => Fault::StuckAt {
            vic: spot_down(first, vic),
            value,
        },
        Fault::CannotRise { vic } => Fault::CannotRise {
            vic: spot_down(first, vic),
        },
        Fault::CannotFall { vic } => Fault::CannotFall {
            vic: spot_down(first, vic),
        },
        Fault::Invert { agg, rise, vic } => Fault::Invert {
            agg: spot_down(first, agg),
            rise,
            vic: spot_down(first, vic),
        },
        Fault::Force {
            agg,
            rise,
            vic,
            value,
        } => Fault::Force {
            agg: spot_down(first, agg),
            rise,
            vic: spot_down(first, vic),
            value,
        },
        Fault::State {
            agg,
            holds,
            vic,
            value,
        } => Fault::State {
            agg: spot_down(first, agg),
            holds,
            vic: spot_down(first, vic),
            value,
        },
        Fault::NoCell { addr, seen } => Fault::NoCell {
            addr: addr - first,
            seen,
        },
        Fault::Also {
            addr,
            other,
            wired_and,
        } => Fault::Also {
            addr: addr - first,
            other: other - first,
            wired_and,
        },
        Fault::Instead { addr, other } => Fault::Instead {
            addr: addr - first,
            other: other - first,
        },
    }
}
