//! Requests of an event: in which order they are served, what is answered to them, and what is entered.
#![tactic(auto)]

mod event;
mod laws;
mod log;
mod reply;
mod serve;
mod walk;

pub use event::run_event;
pub use laws::{
    an_event_has_room, attempts_are_within, events_do_their_handlers, handlers_are_done,
    requests_are_served, waits_are_short,
};
pub use log::{Entry, EventLog};
pub use reply::{AlgorithmName, Detail, Refusal, Reply, ShownState, TestResult, Value};
pub use serve::{Callee, serve_due, serve_left};
pub use walk::Walk;
