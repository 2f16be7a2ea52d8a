//! Why a line is refused.

/// The rules of the lines of a fault location, in the order of their numbers.
#[derive(Clone, Copy, Debug, PartialEq, Eq)]
pub enum LocateKind {
    /// Number 1: another token may stand there, or none.
    Spelling,
    /// Number 2: a word that spells no number, or no word of a memory.
    Number,
    /// Number 4: a word that does not fit the width.
    WordTooWide,
    /// Number 12: there is no such set, block or slice.
    SliceUnknown,
    /// Number 13: the slice has more than 128 bits.
    TooManyBits,
    /// Number 14: the set's algorithm is transparent Galpat.
    NotLocated,
    /// Number 15: an index that does not rise, or is not that of a checked read, or the word that was expected.
    MissOrder,
}

impl LocateKind {
    ghost use Rattle.std.specs.Prelude.{◌≡◌};
    ghost use Rattle.mt_locate.specs.LocateLines.{kind_number};

    /// The number of the rule.
    pub fn number(self) -> u8
        ensures { result ≡ kind_number self }
    {
        match self {
            LocateKind::Spelling => 1,
            LocateKind::Number => 2,
            LocateKind::WordTooWide => 4,
            LocateKind::SliceUnknown => 12,
            LocateKind::TooManyBits => 13,
            LocateKind::NotLocated => 14,
            LocateKind::MissOrder => 15,
        }
    }
}

/// The least rule that the first wrong token breaks, and the place of that token's first byte, counted from 1. Where
/// the line ends too early it is `Spelling` at the line's length plus 1.
#[derive(Clone, Copy, Debug, PartialEq, Eq)]
pub struct LocateRefusal {
    pub kind: LocateKind,
    pub place: u32,
}
