//! Words in hexadecimal digits, read and written, and texts of a fixed capacity.
#![tactic(auto)]

mod laws;
mod reading;
mod writing;

pub use laws::{digits_have_values, words_fit};
pub use reading::{hex_of, word_of};
pub use writing::{push_bytes, push_number, push_word};

#[cfg(test)]
mod tests;
