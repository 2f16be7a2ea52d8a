//! A file, as its lines.

ghost use Rattle.std.specs.Prelude.{◌≡◌, ◌≤◌, ◌-◌, min, length, map, take, drop};
ghost use Rattle.std.specs.List.{position_or_len};
ghost use Rattle.mt_place.specs.Places.{byte_count};
ghost use Rattle.mt_explain.specs.Lines.{is_separator};

use crate::lines::{len_to_separator, line_at};

/// The most bytes of a configuration.
const MOST_BYTES: usize = 65_536;

/// The bytes of a file, its lines, and how many of them are the configuration's with its separator.
#[derive(Clone, Copy)]
pub struct File<'a, 'l> {
    pub bytes: &'a [u8],
    pub lines: &'l [&'a [u8]],
    pub head: usize,
}

// How many bytes some lines have, with a line feed each; no more than there are.
fn byte_count(lines: &[&[u8]], most: usize) -> usize
    ensures { result ≡ min most (byte_count (map (λ line. line.now) lines.now)) }
{
    let mut left = most;
    for line in lines {
        left = left.saturating_sub(line.len() + 1);
    }
    most - left
}

// The first bytes of a text, as many as may be.
fn at_most(bytes: &[u8], most: usize) -> &[u8]
    ensures value { result.now ≡ take most bytes.now }
    ensures fits { length result.now ≤ most }
{
    &bytes[..bytes.len().min(most)]
}

impl<'a, 'l> File<'a, 'l> {
    /// The lines of the configuration, without its separator; all if there is none.
    pub fn head_lines(&self) -> &'l [&'a [u8]]
        ensures { result.now ≡ take (self.now.head - 1) self.now.lines.now }
    {
        &self.lines[..self.lines.len().min(self.head.saturating_sub(1))]
    }

    /// The bytes of the configuration; all if there is no separator.
    pub fn head_bytes(&self) -> &'a [u8]
        ensures { result.now ≡ take (byte_count (map (λ line. line.now) (take (self.now.head - 1) self.now.lines.now))) self.now.bytes.now }
    {
        &self.bytes[..byte_count(self.head_lines(), self.bytes.len())]
    }

    /// The bytes of the configuration, as far as one may have them.
    pub fn config(&self) -> &'a [u8]
        ensures value { result.now ≡ take 65536 (take (byte_count (map (λ line. line.now) (take (self.now.head - 1) self.now.lines.now))) self.now.bytes.now) }
        ensures fits { length result.now ≤ 65536 }
    {
        at_most(self.head_bytes(), MOST_BYTES)
    }

    /// The lines after the configuration.
    pub fn body(&self) -> &'l [&'a [u8]]
        ensures { result.now ≡ drop self.now.head self.now.lines.now }
    {
        &self.lines[self.lines.len().min(self.head)..]
    }

    /// How many lines the script of a claim has, up to the second separator; all if there is none.
    pub fn script_len(&self) -> usize
        ensures value { result ≡ position_or_len is_separator (drop self.now.head (map (λ line. line.now) self.now.lines.now)) }
        ensures fits { result ≤ length self.now.lines.now }
    {
        len_to_separator(self.body())
    }

    /// The bytes of the configuration and of the script, with the first separator.
    pub fn job_bytes(&self) -> &'a [u8] {
        let count = self
            .lines
            .len()
            .min(self.head.saturating_add(self.script_len()));
        &self.bytes[..byte_count(&self.lines[..count], self.bytes.len())]
    }
}

/// A line of the script by its number, counted from 1; empty after the last one.
pub fn script_line<'a>(file: &File<'a, '_>, number: usize) -> &'a [u8] {
    line_at(file.lines, file.head.saturating_add(number).max(1))
}
