//! Script lines and trace lines.
#![tactic(auto)]

mod call;
mod cursor;
mod entry;
mod event;
mod event_text;
mod handler;
mod laws;
mod line;
mod line_text;
mod names;
mod reading;
mod request;
mod token;
mod value;

pub use cursor::Cursor;
pub use entry::{entry_text, push_entry, write_entry};
pub use event_text::LineText;
pub use laws::{
    canonical_lines_spell_themselves, numbers_have_one_spelling, one_line, reading_is_spelling,
    replies_are_told_apart, spelled_lines_are_accepted, spelled_lines_have_their_tokens,
    spelling_is_a_token_of_no_line, the_least_rule_is_told, tokens_end_at_their_bytes,
    tokens_of_a_line_spell_it, trace_lines_stand_in_order, words_have_hexadecimal_digits,
};
pub use line::{Event, FlsCall, Line, LineKind, LineRefusal, RamCall};
pub use line_text::{push_fault_line, push_line, write_line};
pub use reading::read_line;
pub use token::{Token, number_of};

#[cfg(test)]
mod tests;
