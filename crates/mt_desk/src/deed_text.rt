//! What was done on a board, in words.

ghost use Rattle.std.specs.Prelude.{◌≤◌, ◌+◌, length};

use crate::place::{Blocks, Place};
use crate::step::{Step, step_text};
use arrayvec::ArrayVec;
use mt_hex::{push_bytes, push_number, push_word};
use mt_port::{AppOp, Module};
use mt_text::{Event, Line, LineText, push_line};
use mt_word::Width;

/// A line of a list: at most 160 bytes.
pub type Text = ArrayVec<u8, 160>;

/// An access as it is listed: its number in its event, where it was made, its word, and its step, if it is one of a sequence.
#[derive(Clone, Copy, Debug, PartialEq, Eq)]
pub struct Listed {
    pub count: u32,
    pub addr: u32,
    pub word: u64,
    pub step: Option<Step>,
}

// The text of an access, up to its word.
fn access_text(width: Width, name: &[u8], access: Listed) -> Text
    requires { length name.now ≤ 16 }
    ensures { length result.items ≤ 64 }
{
    let mut text = ArrayVec::new();
    push_bytes(&mut text, b"  ");
    push_number(&mut text, access.count);
    push_bytes(&mut text, name);
    push_number(&mut text, access.addr);
    push_bytes(&mut text, b": ");
    push_word(&mut text, width, access.word);
    text
}

/// The text of a hold, under which an attempt at a slice is made. The first attempt is not numbered.
pub fn hold_text(of: Blocks, place: Option<Place>, attempt: u32) -> Text {
    let mut text = ArrayVec::new();
    push_bytes(&mut text, b"  hold");
    if let Some(place) = place {
        push_bytes(&mut text, b": ");
        push_bytes(&mut text, of.name());
        push_bytes(&mut text, b" ");
        push_number(&mut text, place.block);
        push_bytes(&mut text, b", words ");
        push_number(&mut text, place.first);
        push_bytes(&mut text, b" to ");
        push_number(&mut text, place.last);
        if attempt > 1 {
            push_bytes(&mut text, b", attempt ");
            push_number(&mut text, attempt);
        }
    }
    push_bytes(&mut text, b"\n");
    text
}

// Ends the line of an access with its step.
fn push_end(text: &mut Text, step: Option<Step>)
    requires { length text.old.items ≤ 100 }
{
    if let Some(step) = step {
        push_bytes(text, &step_text(step));
    }
    push_bytes(text, b"\n");
}

/// The text of a write.
pub fn write_text(width: Width, access: Listed) -> Text {
    let mut text = access_text(width, b" write ", access);
    push_end(&mut text, access.step);
    text
}

// Adds the word that was expected, if one was, and a mark if the read answered another one.
fn push_expected(text: &mut Text, width: Width, word: u64, expected: Option<u64>)
    requires { length text.old.items ≤ 64 }
    ensures { length text.new.items ≤ 100 }
{
    if let Some(wanted) = expected {
        push_bytes(text, b", expected ");
        push_word(text, width, wanted);
        if wanted != word {
            push_bytes(text, b", differs");
        }
    }
}

/// The text of a read in a memory, with the word that was expected, if one was, and a mark where it is another one.
pub fn read_text(width: Width, module: Module, access: Listed, expected: Option<u64>) -> Text {
    let name: &[u8] = match module {
        Module::RamTst => b" read ",
        Module::FlsTst => b" read flash ",
    };
    let mut text = access_text(width, name, access);
    push_expected(&mut text, width, access.word, expected);
    push_end(&mut text, access.step);
    text
}

/// The text of what a script line or a handler asks for.
pub fn event_text(width: Width, event: Event) -> LineText {
    let mut text = ArrayVec::new();
    let mut line = Line::new();
    line.event = event;
    push_line(&mut text, &line, width);
    text
}

/// The text of how many accesses are left out.
pub fn left_out_text(count: u32) -> Text {
    let mut text = ArrayVec::new();
    push_bytes(&mut text, b"  left out: ");
    push_number(&mut text, count);
    push_bytes(&mut text, b" accesses\n");
    text
}
