//! Notes on script lines.

ghost use Rattle.std.specs.Prelude.{IfOk};
ghost use Rattle.mt_explain.specs.Notes.{IsPlain};

use crate::tokens::{Tokens, tokens_to};
use crate::vocabulary::Gap;
use mt_place::{Note, shown};
use mt_port::Shape;
use mt_text::number_of;
use mt_word::bits;
use std::alloc::{AllocError, Global};

/// A refused line, and the place where it is refused.
#[derive(Clone, Copy)]
pub struct Refused<'a> {
    pub text: &'a [u8],
    pub place: u32,
}

impl<'a> Refused<'a> {
    /// What stands before the place.
    pub fn front(self) -> &'a [u8] {
        &self.text[..self.text.len().min((self.place as usize).saturating_sub(1))]
    }
}

/// What was found, and what would be taken.
#[derive(Clone, Copy)]
struct Advice {
    found: &'static str,
    help: &'static str,
}

// What other formats allow, and this one does not.
fn habit(token: &[u8]) -> Option<Advice> {
    if token == b"=====".as_slice() {
        return Some(Advice {
            found: "a second separator is for verify alone",
            help: "leave the line out, or ask for verify",
        });
    }
    if token.starts_with(b"#") {
        return Some(Advice {
            found: "a comment stands on a line of its own",
            help: "write the comment on the line before",
        });
    }
    if token.contains(&b'\t') {
        return Some(Advice {
            found: "a tab is part of this word",
            help: "write a space in place of each tab",
        });
    }
    if token.ends_with(b"\r") {
        return Some(Advice {
            found: "a carriage return is part of this word",
            help: "write lines that end with a line feed alone",
        });
    }
    None
}

// A note on a token that may not stand where it does, or on a line that ends too early.
fn spelling(alloc: Global, gap: Gap<'_>, tokens: &Tokens<'_>) -> Result<Note, AllocError>
    ensures { IfOk result IsPlain }
{
    let Some(token) = tokens.here else {
        let found = String::from_str(alloc, "the line ends here")?;
        return Ok(Note::of(1, found, gap.help(alloc, &[])?));
    };
    if let Some(advice) = habit(token) {
        let found = String::from_str(alloc, advice.found)?;
        let help = String::from_str(alloc, advice.help)?;
        return Ok(Note::of(token.len(), found, help));
    }
    let word = shown(alloc, token)?;
    let found = format!(in alloc; "{word} may not stand here")?;
    Ok(Note::of(token.len(), found, gap.help(alloc, token)?))
}

// The offset of the request before.
fn offset_before<'a>(tokens: &Tokens<'a>) -> &'a [u8] {
    for token in tokens.before.iter().rev() {
        match token {
            [b'@' | b'!', offset @ ..] => return offset,
            _ => {}
        }
    }
    &[]
}

fn falls(alloc: Global, token: &[u8], tokens: &Tokens<'_>) -> Result<String, AllocError> {
    let word = shown(alloc, token)?;
    let before = shown(alloc, offset_before(tokens))?;
    format!(in alloc; "{word} comes after the offset {before}")
}

// The bit of a spot.
fn bit_of(token: &[u8]) -> Option<u32> {
    let point = token.iter().position(|byte| *byte == b'.')?;
    number_of(&token[point + 1..])
}

// Why a fault may not be there.
fn misplaced(alloc: Global, token: &[u8], shape: Shape) -> Result<Note, AllocError>
    ensures { IfOk result IsPlain }
{
    let width = bits(shape.width);
    let word = shown(alloc, token)?;
    if bit_of(token).is_some_and(|bit| bit >= width) {
        let found = format!(in alloc; "a word has no such bit as that of {word}")?;
        let last = width.saturating_sub(1);
        let help = format!(in alloc; "the bits are 0 to {last}")?;
        return Ok(Note::of(token.len(), found, help));
    }
    let found = format!(in alloc; "{word} is in the word that the fault names first")?;
    let help = String::from_str(alloc, "name two words")?;
    Ok(Note::of(token.len(), found, help))
}

// What was found, by the number of the rule.
fn found(alloc: Global, code: u8, shape: Shape, tokens: &Tokens<'_>) -> Result<String, AllocError> {
    let token = tokens.here.unwrap_or(&[]);
    let word = shown(alloc, token)?;
    let width = bits(shape.width);
    match code {
        2 => format!(in alloc; "found {word}"),
        3 => format!(in alloc; "{word} is beyond the last address"),
        4 => format!(in alloc; "{word} has more than {width} bits"),
        5 => falls(alloc, token, tokens),
        6 => format!(in alloc; "{word} is request 17 of its line"),
        7 => format!(in alloc; "{word} begins operation 9 of its handler"),
        _ => format!(in alloc; "{word} is not for a handler of this event"),
    }
}

// What would be taken, by the number of the rule.
fn help(alloc: Global, code: u8, gap: Gap<'_>, token: &[u8]) -> Result<String, AllocError> {
    match code {
        5 => String::from_str(alloc, "write the requests in the order of their offsets"),
        6 => String::from_str(alloc, "write the further requests after another event"),
        7 => String::from_str(alloc, "write the further operations into another handler"),
        _ => gap.help(alloc, token),
    }
}

/// A note on a line that is refused by one of the rules 1 to 9 of script lines.
pub fn script_note(
    alloc: Global,
    code: u8,
    shape: Shape,
    line: Refused<'_>,
) -> Result<Note, AllocError>
    ensures { IfOk result IsPlain }
{
    let tokens = tokens_to(alloc, line.text, line.place)?;
    let token = tokens.here.unwrap_or(&[]);
    if code == 9 {
        return misplaced(alloc, token, shape);
    }
    let gap = Gap {
        front: line.front(),
        at_end: tokens.here.is_none(),
        shape,
    };
    if code == 1 {
        return spelling(alloc, gap, &tokens);
    }
    let found = found(alloc, code, shape, &tokens)?;
    let help = help(alloc, code, gap, token)?;
    Ok(Note::of(token.len(), found, help))
}

/// A note on a line, a script or a claim that is too long, or on a claim without a trace: the rules 10, 11, 16 and 17.
pub fn limit_note(alloc: Global, code: u8, line: Refused<'_>) -> Result<Note, AllocError>
    ensures { IfOk result IsPlain }
{
    let count = line.text.len();
    let (found, help) = match code {
        10 => (
            format!(in alloc; "the line has {count} bytes")?,
            "write the line in at most 1024 bytes",
        ),
        11 => (
            String::from_str(alloc, "this line is one too many")?,
            "cut the script into several jobs",
        ),
        16 => (
            String::from_str(alloc, "this byte is one too many")?,
            "cut the script into several jobs",
        ),
        _ => (
            String::from_str(alloc, "the file ends here")?,
            "write a line ===== after the script, and then the trace",
        ),
    };
    Ok(Note::of(1, found, String::from_str(alloc, help)?))
}
