//! The lines of a file.

ghost use Rattle.std.specs.Prelude.{◌≡◌, ◌<◌, ◌≤◌, ◌∷◌, ◌==◌, not, length, map, ◌+◌, IfOk};
ghost use Rattle.std.specs.List.{prefix_len, position_or_len};
ghost use Rattle.mt_verify.specs.Lines.{lines};
ghost use Rattle.mt_place.specs.Places.{line_at};
ghost use Rattle.mt_explain.specs.Lines.{is_separator, head_len};

use std::alloc::{AllocError, Global};

const SEPARATOR: &[u8] = b"=====";

// How many bytes come before the first line feed.
fn line_len(bytes: &[u8]) -> usize
    ensures len { result ≡ prefix_len (λ b. not (b == 10)) bytes.now }
    ensures fits { result ≤ length bytes.now }
{
    bytes.iter().take_while(|b| **b != b'\n').count()
}

// The first line of a text that has a byte, and what follows its line feed.
fn first_line(text: &[u8]) -> (&[u8], &[u8])
    requires { 0 < length text.now }
    ensures lines { lines text.now ≡ result.0.now ∷ lines result.1.now }
    ensures shorter { length result.1.now < length text.now }
{
    let len = line_len(text);
    let (line, _) = text.split_at(len);
    if len == text.len() {
        return (line, &[]);
    }
    let (_, after) = text.split_at(len + 1);
    (line, after)
}

/// The lines of a text. A last line without a line feed counts where it has a byte.
pub fn lines_of(alloc: Global, bytes: &[u8]) -> Result<Vec<&[u8]>, AllocError>
    ensures { IfOk result (λ v. map (λ line. line.now) v.items ≡ lines bytes.now) }
{
    let mut found = Vec::new(alloc);
    let mut rest = bytes;
    while !rest.is_empty() {
        let (line, after) = first_line(rest);
        found.push(line)?;
        rest = after;
    }
    Ok(found)
}

/// Whether a line is a separator.
pub fn is_separator(line: &[u8]) -> bool
    ensures { result ≡ is_separator line.now }
{
    line == SEPARATOR
}

/// How many lines come before the first separator.
pub fn len_to_separator(file: &[&[u8]]) -> usize
    ensures value { result ≡ position_or_len (λ line. is_separator line.now) file.now }
    ensures fits { result ≤ length file.now }
{
    file.iter().take_while(|line| !is_separator(line)).count()
}

/// How many lines the configuration has, with its separator.
pub fn head_len(file: &[&[u8]]) -> usize
    ensures value { result ≡ head_len (map (λ line. line.now) file.now) }
    ensures fits { result ≤ length file.now + 1 }
{
    len_to_separator(file) + 1
}

/// The line with a number, counted from 1; nothing after the last one.
pub fn line_at<'a>(file: &[&'a [u8]], number: usize) -> &'a [u8]
    ensures { result.now ≡ line_at (map (λ line. line.now) file.now) number }
{
    match file.get(number.saturating_sub(1)) {
        Some(line) => line,
        None => &[],
    }
}
