//! Where a step of an algorithm stands.

/// The place of a step: its part of the algorithm, its row in the part, and its place in the row.
#[derive(Clone, Copy, Debug, PartialEq, Eq)]
pub struct Place {
    pub part: u32,
    pub row: u32,
    pub at: u32,
}
