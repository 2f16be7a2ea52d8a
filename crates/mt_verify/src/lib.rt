//! The comparison of a given text with an expected one: the first line at which they differ, found as both come in pieces.
#![tactic(auto)]

mod compare;
mod laws;
mod tally;
#[cfg(test)]
mod tests;
mod texts;

pub use compare::common;
pub use laws::{
    equal_texts, expected_ends, feeds_end_open_lines, first_other_is_least, given_ends,
    line_counts, mismatches, whole_lines,
};
pub use tally::Tally;
pub use texts::first_other;
