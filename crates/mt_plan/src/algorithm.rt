//! The types.

ghost use Rattle.std.specs.Prelude.{◌≡◌};

use mt_march::March;

/// An algorithm of a RAM test: AUTOSAR, Specification of RAM Test. What makes steps of it asks that its march is an
/// accepted one.
#[derive(Drop)]
pub enum Algorithm {
    Checkerboard,
    March(March),
    WalkPath,
    Galpat,
    /// Galpat on the words that the cells hold.
    TransparentGalpat,
}

impl Algorithm {
    /// An equal algorithm.
    pub fn copy(&self) -> Algorithm
        ensures { result ≡ self.now }
    {
        match self {
            Algorithm::Checkerboard => Algorithm::Checkerboard,
            Algorithm::March(march) => Algorithm::March(march.copy()),
            Algorithm::WalkPath => Algorithm::WalkPath,
            Algorithm::Galpat => Algorithm::Galpat,
            Algorithm::TransparentGalpat => Algorithm::TransparentGalpat,
        }
    }
}

/// Whether a block keeps its words over a test, or is filled after it.
#[derive(Clone, Copy, Debug, PartialEq, Eq)]
pub enum Policy {
    NonDestructive,
    Destructive,
}

/// What a step does with its cell. Plain is the cell's background word, and Flipped its complement.
#[derive(Clone, Copy, Debug, PartialEq, Eq)]
pub enum Act {
    ReadPlain,
    ReadFlipped,
    WritePlain,
    WriteFlipped,
}

impl Act {
    ghost use Rattle.mt_plan.specs.Lists.{is_flipped, is_write};

    /// Whether the act writes.
    #[inline(always)]
    pub fn is_write(self) -> bool
        ensures { result ≡ is_write self }
    {
        match self {
            Act::WritePlain | Act::WriteFlipped => true,
            Act::ReadPlain | Act::ReadFlipped => false,
        }
    }

    /// Whether the act writes or expects the complement.
    #[inline(always)]
    pub fn is_flipped(self) -> bool
        ensures { result ≡ is_flipped self }
    {
        match self {
            Act::ReadFlipped | Act::WriteFlipped => true,
            Act::ReadPlain | Act::WritePlain => false,
        }
    }
}

/// One access of an algorithm. Cells of a slice are counted from 0.
#[derive(Clone, Copy, Debug, PartialEq, Eq)]
pub struct Step {
    pub cell: u8,
    pub act: Act,
}
