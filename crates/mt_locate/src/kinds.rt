//! The kinds of faults, in the order in which they are listed.

ghost use Rattle.std.specs.Prelude.{◌≡◌};
ghost use Rattle.mt_locate.specs.Listed.{kinds};

/// A kind of faults of one bit.
#[derive(Clone, Copy)]
pub enum OfBit {
    StuckAt,
    CannotRise,
    CannotFall,
}

/// A kind of coupling faults, as far as it is told before the aggressor.
#[derive(Clone, Copy)]
pub enum Coupling {
    /// The aggressor's change inverts the victim.
    Invert { rise: bool },
    /// The aggressor's change makes the victim 0 or 1.
    Force { rise: bool },
    /// The aggressor's state makes the victim 0 or 1.
    State { holds: bool },
}

/// A kind of faults of the address decoder with two cells.
#[derive(Clone, Copy)]
pub enum OfCells {
    Also,
    Instead,
}

/// A kind of faults of the list.
#[derive(Clone, Copy)]
pub enum Kind {
    OfBit(OfBit),
    Coupling(Coupling),
    NoCell,
    OfCells(OfCells),
}

/// The kinds in the order of the list.
pub const fn kinds() -> [Kind; 12]
    ensures { result ≡ kinds }
{
    [
        Kind::OfBit(OfBit::StuckAt),
        Kind::OfBit(OfBit::CannotRise),
        Kind::OfBit(OfBit::CannotFall),
        Kind::Coupling(Coupling::Invert { rise: true }),
        Kind::Coupling(Coupling::Invert { rise: false }),
        Kind::Coupling(Coupling::Force { rise: true }),
        Kind::Coupling(Coupling::Force { rise: false }),
        Kind::Coupling(Coupling::State { holds: false }),
        Kind::Coupling(Coupling::State { holds: true }),
        Kind::NoCell,
        Kind::OfCells(OfCells::Also),
        Kind::OfCells(OfCells::Instead),
    ]
}
