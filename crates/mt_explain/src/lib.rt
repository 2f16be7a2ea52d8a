//! Why an input is refused, in words.
#![tactic(auto)]

mod explanation;
mod file;
mod head_note;
mod input;
mod laws;
mod lines;
mod location_note;
mod notes;
mod report_text;
mod row;
mod script_note;
mod table;
mod tokens;
mod trace_note;
mod vocabulary;

pub use explanation::{Explanation, Place, explain};
pub use input::{Input, status_of};
pub use laws::{heads_are_configurations, scripts_follow_heads};
pub use report_text::{report, rule_name};
pub use row::{Book, Row, Rule, row_of, rule_of};
pub use table::rows;

#[cfg(test)]
mod tests;
