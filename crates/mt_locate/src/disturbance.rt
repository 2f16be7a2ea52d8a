//! Coupling faults of the three kinds in one form.

ghost use Rattle.std.specs.Prelude.{◌≡◌, IfSome};
ghost use Rattle.mt_locate.specs.Lanes.{fault_of};

use crate::lanes::Means;
use mt_fault::{Fault, Spot};

/// A coupling fault. Where the victim is inverted, `value` does not matter.
#[derive(Clone, Copy)]
pub struct Disturbance {
    pub means: Means,
    pub agg: Spot,
    pub side: bool,
    pub vic: Spot,
    pub value: bool,
}

/// A fault in this form, if it is a coupling fault.
pub fn to_disturbance(fault: Fault) -> Option<Disturbance>
    ensures { IfSome result (λ d. fault_of d ≡ fault) }
{
    match fault {
        Fault::Invert { agg, rise, vic } => Some(Disturbance {
            means: Means::Invert,
            agg,
            side: rise,
            vic,
            value: false,
        }),
        Fault::Force {
            agg,
            rise,
            vic,
            value,
        } => Some(Disturbance {
            means: Means::Force,
            agg,
            side: rise,
            vic,
            value,
        }),
        Fault::State {
            agg,
            holds,
            vic,
            value,
        } => Some(Disturbance {
            means: Means::State,
            agg,
            side: holds,
            vic,
            value,
        }),
        _ => None,
    }
}
