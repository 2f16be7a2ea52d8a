//! The promises of a replay, over the steps of a machine: its requests wait little, its tests disturb nothing and raise no false alarm, an
//! undisturbed pass finds each fault that the table of coverage names, and a block that is OK had none.
//!
//! Each law is the contract of a function. It speaks of accepted lines and an accepted configuration, and not of bytes; `replay`
//! says it of the jobs that it reads.
#![tactic(auto)]

mod laws;

pub use laws::{
    memory_is_plain, no_false_alarm_of_fls, no_false_alarm_of_ram, ok_is_evidence,
    passes_find_faults, requests_are_served_in_time, slices_bound_waits, tests_leave_no_trace,
};
