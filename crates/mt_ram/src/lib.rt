//! The module RamTst, after AUTOSAR, Specification of RAM Test: its services, its state table, and its running calls.
#![tactic(auto)]

mod callee;
mod laws;
mod pass_walk;
mod result;
mod running;
mod services;
mod slice;
mod state;
mod test_walk;

pub use laws::{
    accepted_sets_are_sound, attempts_are_at_slices, attempts_of_running_calls,
    dropped_attempts_leave_words, handlers_leave_results, marks_are_of_calls, results_are_of_tests,
    results_are_reset, running_calls_keep_the_board, running_calls_leave_setting,
    running_calls_test_their_set, services_leave_setting, tests_leave_no_trace,
    ticks_end_by_the_mark, waits_of_running_calls,
};
pub use state::{Ram, State};

#[cfg(test)]
mod tests;
