//! Where a configuration breaks a rule, and what is wrong there.
#![tactic(auto)]

mod block_finding;
mod entry;
mod find;
mod finding;
mod flash_finding;
mod march_note;
mod mark;
mod nearest;
mod note;
mod path;
mod rules;
mod shape_finding;
mod value_finding;

pub use mark::Mark;
pub use nearest::suggestion;
pub use note::{Note, listed, shown};
pub use rules::config_note;

#[cfg(test)]
mod tests;
