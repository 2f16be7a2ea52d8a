//! Classes of faults.

ghost use Rattle.std.specs.Prelude.{◌≡◌};
ghost use Rattle.mt_cover.specs.Coverage.{class_of};

use mt_fault::Fault;

/// A class of functional faults: van de Goor, Testing Semiconductor Memories.
#[derive(Clone, Copy, Debug, PartialEq, Eq)]
pub enum Class {
    /// Stuck-at faults.
    StuckAt,
    /// Transition faults.
    Transition,
    /// Inversion coupling faults.
    Invert,
    /// Idempotent coupling faults.
    Force,
    /// State coupling faults.
    State,
    /// Address decoder faults.
    Decoder,
}

/// The class of a fault.
pub fn class_of(fault: &Fault) -> Class
    ensures { result ≡ class_of fault.now }
{
    match fault {
        Fault::StuckAt { .. } => Class::StuckAt,
        Fault::CannotRise { .. } | Fault::CannotFall { .. } => Class::Transition,
        Fault::Invert { .. } => Class::Invert,
        Fault::Force { .. } => Class::Force,
        Fault::State { .. } => Class::State,
        Fault::NoCell { .. } | Fault::Also { .. } | Fault::Instead { .. } => Class::Decoder,
    }
}
