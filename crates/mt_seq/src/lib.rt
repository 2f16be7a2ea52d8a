//! Sequences: the test accesses of one slice, made under one hold of interrupts.
#![tactic(auto)]

mod access;
mod attempt;
mod compare;
mod course;
mod indexing;
mod laws;
mod own;
mod run;
mod sequence;
mod span;
mod stepper;

pub use access::Access;
pub use attempt::{run_slice, try_slice};
pub use compare::run_compare;
pub use indexing::access_at;
pub use laws::{
    answers_make_the_sequence, attempts_are_counted, attempts_end_at_the_first_moment,
    attempts_on_sound_memory, caught_faults_fail, comparisons_are_exact,
    comparisons_find_the_first, holds_are_lengths, own_accesses_decide, sequences_are_short,
    sound_memory, steps_make_the_sequence, urgent_requests_wait_shortly,
};
pub use sequence::{Frame, Job, Slice, Verdict};
pub use stepper::{Progress, Stepper};
