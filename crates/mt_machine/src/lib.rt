//! The machine that a script drives: the board, RamTst and FlsTst over it, and what one line makes of them.
//!
//! `perform` does what a line asks for. `Modules` are both modules in UNINIT at first. A module is `Driven` by the calls on
//! lines; its state tables and its tests stand in `mt_ram` and `mt_fls`.
#![tactic(auto)]

mod driven;
mod event;
mod laws;
mod modules;

pub use driven::{Called, Driven, FlsRunning, Running};
pub use event::perform;
pub use laws::lines_keep_the_board;
pub use modules::Modules;
