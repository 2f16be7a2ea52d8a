//! The module FlsTst, after AUTOSAR, Specification of Flash Test: its services, its state table, and its running calls.
#![tactic(auto)]

mod block_walk;
mod callee;
mod laws;
mod pass_walk;
mod running;
mod services;
mod slice;
mod state;
mod taken;

pub use laws::{
    attempts_of_running_calls, handlers_leave_results, marks_are_of_calls,
    results_are_of_sequences, results_are_reset, running_calls_keep_the_board,
    services_leave_setting, ticks_end_by_the_mark, waits_of_running_calls,
};
pub use state::{Back, Fls, State};

#[cfg(test)]
mod tests;
