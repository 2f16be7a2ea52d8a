//! The generated job: its configuration, and for each number a script of 20,000 lines, given byte by byte or line by line;
//! and what is added up when it is replayed.
#![tactic(auto)]

mod config;
mod draw;
mod laws;
mod line;
mod lines;
mod source;
mod summary;
#[cfg(test)]
mod tests;

pub use config::job_config;
pub use laws::{
    job_config_is_accepted, lines_are_of_forms, lines_go_on, scripts_are_accepted,
    scripts_have_20000_lines, summaries_are_sums,
};
pub use lines::ScriptLines;
pub use source::GenSource;
pub use summary::Summary;
