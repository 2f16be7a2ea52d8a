//! The algorithms of a RAM test, as lists of accesses to the cells of a slice.
#![tactic(auto)]

mod algorithm;
mod counting;
mod cursor;
mod indexing;
mod laws;
mod line;
mod place;
mod rounds;
mod rows;

pub use algorithm::{Act, Algorithm, Policy, Step};
pub use counting::{hold_of, steps};
pub use cursor::Steps;
pub use indexing::step_at;
pub use laws::{kept_cells, lengths, march_on_kept_cells, plans_are_steady, spans_are_counted};
pub use line::{Line, act_of};
pub use rounds::{reading, writing};
pub use rows::cell_of;

#[cfg(test)]
mod tests;
