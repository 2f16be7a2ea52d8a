//! A C text under way, with the numbers that it takes.

use itoa::Buffer;
use std::alloc::{AllocError, Global};

/// How many numbers stand on a line.
const ON_A_LINE: u32 = 16;

/// A text, and the numbers of which it takes one after another.
#[derive(Drop)]
pub struct Writer<'a> {
    text: Vec<u8>,
    numbers: &'a [u64],
    at: usize,
}

impl<'a> Writer<'a> {
    /// A text that is empty.
    pub fn new(alloc: Global, numbers: &'a [u64]) -> Writer<'a> {
        Writer {
            text: Vec::new(alloc),
            numbers,
            at: 0,
        }
    }

    /// Writes words.
    pub fn say(&mut self, words: &str) -> Result<(), AllocError> {
        self.text.extend_from_slice(words.as_bytes())
    }

    /// Writes a number that is a part of a name, or a size.
    pub fn name(&mut self, number: u64) -> Result<(), AllocError> {
        let mut buffer = Buffer::new();
        self.text
            .extend_from_slice(buffer.format(number).as_bytes())
    }

    /// Writes the next number.
    pub fn take(&mut self) -> Result<(), AllocError> {
        let number = self.numbers.get(self.at).copied().unwrap_or(0);
        self.at = self.at.saturating_add(1);
        self.name(number)?;
        self.say("u")
    }

    /// Writes so many next numbers, with commas between them.
    pub fn take_some(&mut self, count: u32) -> Result<(), AllocError> {
        for index in 0..count {
            if index > 0 {
                self.say(", ")?;
            }
            self.take()?;
        }
        Ok(())
    }

    /// Writes so many next numbers, on lines of their own.
    pub fn take_lines(&mut self, count: u32) -> Result<(), AllocError> {
        for index in 0..count {
            self.say(if index % ON_A_LINE == 0 { "    " } else { " " })?;
            self.take()?;
            self.say(if index % ON_A_LINE == ON_A_LINE - 1 || index + 1 == count {
                ",\n"
            } else {
                ","
            })?;
        }
        Ok(())
    }

    /// Writes a line of so many next numbers in braces, after some words.
    pub fn take_row(&mut self, count: u32) -> Result<(), AllocError> {
        self.say("    {")?;
        self.take_some(count)?;
        self.say("},\n")
    }

    /// The text.
    pub fn into_text(self) -> Vec<u8> {
        self.text
    }
}
