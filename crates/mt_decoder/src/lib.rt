//! The first read of an algorithm that a fault of the memory disturbs.
#![tactic(auto)]

mod caught;
mod laws;

pub use caught::caught_at;
pub use laws::nothing_is_missed_where_all_pass;

#[cfg(test)]
mod tests;
