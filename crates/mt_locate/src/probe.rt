//! The types.

use mt_plan::Algorithm;
use mt_word::Width;

/// A slice of a memory, and the algorithm that was run on it. What takes a probe asks that it is an accepted one.
#[derive(Drop)]
pub struct Probe {
    /// Each algorithm but transparent Galpat.
    pub alg: Algorithm,
    /// The background word of every cell.
    pub background: u64,
    pub width: Width,
    /// The word that every cell held before the algorithm.
    pub initial: u64,
    /// The address of the slice's first word.
    pub first: u32,
    /// How many words the slice has: 1 to 64, of at most 128 bits in all.
    pub n: u8,
}

/// A checked read that answered another word than it was to answer.
#[derive(Clone, Copy, Debug, PartialEq, Eq)]
pub struct Miss {
    /// The index of the read among the accesses of the algorithm, counted from 0.
    pub index: u32,
    /// What it answered.
    pub word: u64,
}
