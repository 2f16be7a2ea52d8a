//! A test of a slice that does no access itself: it says which access comes next, and is told what a read answered.
//!
//! A test is a plan, which is settled when it is set up, a moment, which is where it stands, and the places of the words that
//! its saving reads answered. Whoever makes the accesses keeps these three between two calls.
#![tactic(auto)]

mod laws;
mod plan;
mod settings;
mod test;

pub use laws::{tests_ask_for_the_sequence, tests_may_be_broken_off};
pub use plan::Plan;
pub use settings::{Refusal, Settings};
pub use test::{Due, Ending, Moment, NoWord};
