//! Replays, checks and formats a job: bytes in, bytes out.
#![tactic(auto)]

mod comparing;
mod cut;
mod form;
mod head;
mod input;
mod job;
mod laws;
mod locate;
mod locating;
mod refused;
mod replaying;
mod run;
mod soak;
mod status;
mod text;
mod top;
mod verify;
mod verifying;

pub use laws::{
    formatting_keeps_outcomes, migrating_keeps_outcomes, own_traces_are_the_same,
    traces_are_of_steps,
};
pub use status::{Status, exit_number};
pub use top::replay;
