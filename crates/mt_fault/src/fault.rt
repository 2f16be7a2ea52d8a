//! The functional faults of a word memory, after A. J. van de Goor, "Testing Semiconductor Memories".

use thiserror::Error;

/// One bit of one word.
#[derive(Clone, Copy, Debug, PartialEq, Eq)]
pub struct Spot {
    /// The word's address, counted from 0.
    pub word: u32,
    /// The bit of the word; 0 is the least one.
    pub bit: u8,
}

/// A functional fault of the memory.
///
/// `vic` is the victim, the bit that goes wrong, and `agg` the aggressor, the bit that disturbs it; the two lie in
/// different words. Words are counted in words from 0 up to the memory's size, bits from 0 up to the width.
/// All else in the memory behaves soundly.
#[derive(Clone, Copy, Debug, PartialEq, Eq)]
pub enum Fault {
    /// Stuck-at fault (SAF): the victim is `value` at every moment.
    StuckAt {
        vic: Spot,
        value: bool,
    },
    /// Transition fault (TF) upwards: a write of 1 while the victim is 0 leaves 0.
    CannotRise {
        vic: Spot,
    },
    /// Transition fault (TF) downwards: a write of 0 while the victim is 1 leaves 1.
    CannotFall {
        vic: Spot,
    },
    /// Inversion coupling fault (CFin): a write that changes the aggressor inverts the victim.
    Invert {
        agg: Spot,
        /// The change that disturbs: from 0 to 1 where true, from 1 to 0 where false.
        rise: bool,
        vic: Spot,
    },
    /// Idempotent coupling fault (CFid): a write that changes the aggressor makes the victim `value`.
    Force {
        agg: Spot,
        /// The change that disturbs: from 0 to 1 where true, from 1 to 0 where false.
        rise: bool,
        vic: Spot,
        value: bool,
    },
    /// State coupling fault (CFst): the victim is `value` wherever the aggressor is `holds` after an access.
    State {
        agg: Spot,
        holds: bool,
        vic: Spot,
        value: bool,
    },
    /// Address decoder fault (AF): no cell is reached. A write is lost, and a read answers `seen`.
    NoCell {
        addr: u32,
        /// A word of the memory's width.
        seen: u64,
    },
    /// Address decoder fault (AF): `addr` reaches two cells, its own and `other`. A write goes to both.
    Also {
        addr: u32,
        other: u32,
        /// A read of `addr` answers the bitwise AND of both words where true, their OR where false.
        wired_and: bool,
    },
    /// Address decoder fault (AF): `addr` reaches the cell `other` and not its own.
    Instead {
        addr: u32,
        other: u32,
    },
}

/// Why a fault is refused. The refusals are numbered in the order in which they are looked for.
#[derive(Clone, Copy, Debug, PartialEq, Eq, Error)]
pub enum FaultRefusal {
    /// Number 1: an address is not below the size, a bit is not below the width, or `seen` does not fit the width.
    #[error("an address, a bit or a word is out of range")]
    OutOfRange,
    /// Number 2: the two addresses of a fault with two are equal.
    #[error("the two addresses are one")]
    SameWord,
    /// Number 3: a fault is there already. Which one is not told.
    #[error("a fault is there")]
    Present,
}
