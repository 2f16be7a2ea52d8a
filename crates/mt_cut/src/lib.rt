//! Passes that are cut into ticks under a budget of accesses: the fewest ticks, and the greatest slice for a wait.
#![tactic(auto)]

mod atomic;
mod laws;
mod run;
mod step;

pub use atomic::largest_atomic;
pub use laws::{greatest_slices_bound_waits, longest_runs_are_least};
pub use run::{Above, Run, first_above, least_ticks, next_run, run_from};
pub use step::pass_start;

#[cfg(test)]
mod tests;
