//! The memory words that are tested: blocks of them, the parameter sets of the tests, and how a pass over the blocks is
//! cut into slices, groups and ticks.
#![tactic(auto)]

mod config;
mod laws;
mod list;
mod pass;
mod span;

pub use config::{Block, FlashBlock, FlsConfig, ParamSet, RamConfig};
pub use laws::{
    groups_are_longest, groups_are_the_pass, groups_take_a_tick, passes_begin, passes_go_on,
    slices_are_the_block,
};
pub use list::List;
pub use pass::{
    Position, first_place, following, group_len, is_last, next_of_test, or_start, slice_at,
    ticks_of,
};
pub use span::{HasSpan, Span};
