//! The simulated board: words with at most one fault, flash words, and the requests of an event.
#![tactic(auto)]

mod board;
mod deeds;
mod stores;
#[cfg(test)]
mod tests;
mod watched;

pub use board::SimBoard;
pub use deeds::{Deed, Deeds};
pub use watched::Watched;
