//! Notes on refused marches.

ghost use Rattle.std.specs.Prelude.{◌≡◌, ◌≢◌, ◌↔◌, ◌≤◌, ◌<◌, ◌+◌, ◌-◌, ◌^◌, min, Some, IsTrue, IfOk, IfSome, length, map, take, drop};
ghost use Rattle.mt_place.specs.Places.{IsIn};
ghost use Rattle.mt_place.specs.Marches.{Reads};

use crate::find::{Target, find_spot};
use crate::mark::{Mark, Spot};
use crate::note::{Note, shown};
use crate::path::Path;
use std::alloc::{AllocError, Global};

/// A refused march: the set, the number of the rule, and the place in its text, in bytes from 1.
#[derive(Clone, Copy)]
pub struct RefusedMarch<'a> {
    pub set: u32,
    pub kind: u8,
    pub place: usize,
    pub text: &'a [u8],
}

impl<'a> RefusedMarch<'a> {
    // The index of the place in the text, or of its end.
    fn index(self) -> usize
        ensures { result ≡ min (length self.entry.text.now) (self.entry.place - 1) }
    {
        self.text.len().min(self.place.saturating_sub(1))
    }

    // What stands before the place, and from it on.
    fn front(self) -> &'a [u8]
        ensures { result.now ≡ take (self.entry.place - 1) self.entry.text.now }
    {
        &self.text[..self.index()]
    }

    fn rest(self) -> &'a [u8]
        ensures { result.now ≡ drop (self.entry.place - 1) self.entry.text.now }
    {
        &self.text[self.index()..]
    }

    // How many bytes are marked: a read has two.
    fn length(self) -> usize {
        if self.kind == 3 || self.kind == 4 {
            2
        } else {
            1
        }
    }

    // The place in the value that spells the text, after the quote. With escapes, the value as a whole is marked.
    fn spot_in(self, value: Spot) -> Spot
        requires { value.mark.column + value.length < 2 ^ 64 }
        ensures line { result.mark.line ≡ value.mark.line }
        ensures within { value.mark.column ≤ result.mark.column }
        ensures column { result.mark.column ≤ value.mark.column + value.length }
    {
        if value.length != self.text.len() + 2 {
            return value;
        }
        Spot {
            mark: Mark {
                line: value.mark.line,
                column: value.mark.column + self.index() + 1,
            },
            length: self.length(),
        }
    }
}

// The digit after the last letter of this kind; `?` if there is none.
fn last_digit(text: &[u8], letter: u8) -> char {
    let mut digit = '?';
    for pair in text.windows(2) {
        if let [first, second] = pair
            && *first == letter
        {
            digit = char::from(*second);
        }
    }
    digit
}

fn other_digit(digit: char) -> char
    ensures zero { digit ≡ 48 → result ≡ 49 }
    ensures other { digit ≢ 48 → result ≡ 48 }
{
    if digit == '0' { '1' } else { '0' }
}

// Whether some read expects the digit.
fn reads(text: &[u8], digit: u8) -> bool
    ensures { IsTrue result ↔ Reads digit text.now }
{
    text.windows(2).any(|pair| match pair {
        [letter, second] => *letter == b'r' && *second == digit,
        _ => false,
    })
}

fn found(alloc: Global, march: RefusedMarch<'_>) -> Result<String, AllocError> {
    let written = last_digit(march.front(), b'w');
    match (march.kind, march.rest()) {
        (1, []) => String::from_str(alloc, "the march ends here"),
        (1, [byte, ..]) => {
            let word = shown(alloc, &[*byte])?;
            format!(in alloc; "{word} may not stand here")
        }
        (2, [b'r' | b'w', ..]) => String::from_str(alloc, "this is operation 9 of its element"),
        (2, _) => String::from_str(alloc, "this is element 17"),
        (3, _) => String::from_str(alloc, "no write comes before this read"),
        (4, _) => format!(in alloc; "the last write before this read wrote {written}"),
        _ if reads(march.text, b'0') => String::from_str(alloc, "no read of the march expects 1"),
        _ => String::from_str(alloc, "no read of the march expects 0"),
    }
}

fn help(alloc: Global, march: RefusedMarch<'_>) -> Result<String, AllocError> {
    match march.kind {
        1 => String::from_str(
            alloc,
            "write as {*(w0); u(r0,w1); d(r1,w0)}: orders are *, u and d, operations r0, r1, w0 and w1",
        ),
        2 => String::from_str(alloc, "write at most 16 elements of at most 8 operations"),
        3 => String::from_str(alloc, "write an element before it that writes, as *(w0)"),
        4 => {
            let written = last_digit(march.front(), b'w');
            let other = other_digit(written);
            format!(in alloc; "write r{written}, or w{other} before it")
        }
        _ => String::from_str(alloc, "write a read of each digit, where the cells hold it"),
    }
}

/// A note on a refused march, which is marked where its text stands on one line without escapes.
pub fn march_note(
    alloc: Global,
    march: RefusedMarch<'_>,
    file: &[&[u8]],
) -> Result<Note, AllocError>
    ensures march { IfOk result (λ note. note.march ≡ Some march.entry.kind) }
    ensures mark { IfOk result (λ note. IfSome note.mark (IsIn (map (λ line. line.now) file.now))) }
{
    let path = Path::Set(march.set as usize);
    let name = path.name(alloc)?;
    let found = found(alloc, march)?;
    let text = format!(in alloc; "in {name}, {found}")?;
    let help = help(alloc, march)?;
    let (mark, length) = match find_spot(file, path, Target::Value("march")) {
        Some(value) => {
            let spot = march.spot_in(value);
            (Some(spot.mark), spot.length)
        }
        None => (None, march.length()),
    };
    Ok(Note {
        mark,
        length,
        march: Some(march.kind),
        found: text,
        help,
    })
}
