//! The lines that close a trace, and those of a summary.

ghost use Rattle.std.specs.Prelude.{◌≡◌, ◌≤◌, ◌+◌, codes, decimal, ◌++◌, length};
ghost use Rattle.mt_text.specs.Trace.{result_name};
ghost use Rattle.mt_replay.specs.Locate.{count_text};
ghost use Rattle.mt_replay.specs.Soak.{word_text, number_text, summary_text};
ghost use Rattle.mt_replay.specs.Outcome.{done_text, refused_text, bad_config_text};

use crate::refused::Refused;
use arrayvec::ArrayVec;
use itoa::Buffer;
use mt_gen::Summary;
use mt_hex::{push_bytes, push_number};
use mt_window::TestResult;

/// A closing line: at most 64 bytes.
pub type Text = ArrayVec<u8, 64>;

/// The line of a whole script of so many lines.
pub fn done_text(count: u32) -> Text
    ensures { result.items ≡ done_text count }
{
    let mut text = ArrayVec::new();
    push_bytes(&mut text, b"end ok ");
    push_number(&mut text, count);
    push_bytes(&mut text, b"\n");
    text
}

/// The line of a refused script line.
pub fn refused_text(line: u32, code: u8, place: u32) -> Text
    ensures { result.items ≡ refused_text line code place }
{
    let mut text = ArrayVec::new();
    push_bytes(&mut text, b"bad line ");
    push_number(&mut text, line);
    push_bytes(&mut text, b" ");
    push_number(&mut text, u32::from(code));
    push_bytes(&mut text, b" ");
    push_number(&mut text, place);
    push_bytes(&mut text, b"\n");
    text
}

/// The line that says how many faults there are.
pub fn found_line(count: u32) -> Text
    ensures { result.items ≡ count_text count }
{
    let mut text = ArrayVec::new();
    push_bytes(&mut text, b"found ");
    push_number(&mut text, count);
    push_bytes(&mut text, b"\n");
    text
}

/// The line of a trace that is the expected one, and has so many lines.
pub fn same_line(count: u32) -> Text
    ensures { result.items ≡ codes "same " ++ decimal count ++ codes "\n" }
{
    let mut text = ArrayVec::new();
    push_bytes(&mut text, b"same ");
    push_number(&mut text, count);
    push_bytes(&mut text, b"\n");
    text
}

/// The line of a trace that is another one from this line on.
pub fn differs_line(line: u32) -> Text
    ensures { result.items ≡ codes "differs " ++ decimal line ++ codes "\n" }
{
    let mut text = ArrayVec::new();
    push_bytes(&mut text, b"differs ");
    push_number(&mut text, line);
    push_bytes(&mut text, b"\n");
    text
}

// The line of a refused rule.
fn rule_text(code: u8) -> Text
    ensures { result.items ≡ bad_config_text (Refused.Rule code) }
{
    let mut text = ArrayVec::new();
    push_bytes(&mut text, b"bad config ");
    push_number(&mut text, u32::from(code));
    push_bytes(&mut text, b"\n");
    text
}

// The line of a refused march.
fn march_text(set: u32, kind: u8, place: usize) -> Text
    ensures { result.items ≡ bad_config_text (Refused.March set kind place) }
{
    let mut buffer = Buffer::new();
    let mut text = ArrayVec::new();
    push_bytes(&mut text, b"bad config 11 ");
    push_number(&mut text, set);
    push_bytes(&mut text, b" ");
    push_number(&mut text, u32::from(kind));
    push_bytes(&mut text, b" ");
    push_bytes(&mut text, buffer.format(place).as_bytes());
    push_bytes(&mut text, b"\n");
    text
}

/// The line of a refused configuration.
pub fn bad_config_text(why: &Refused) -> Text
    ensures { result.items ≡ bad_config_text why.now }
{
    match why {
        Refused::Rule(code) => rule_text(*code),
        Refused::March { set, kind, place } => march_text(*set, *kind, *place),
    }
}

/// The lines of a summary: at most 115 bytes, and room for more digits than numbers have.
pub type SummaryText = ArrayVec<u8, 256>;

// Appends a line of a word and a text.
fn push_word_line(out: &mut SummaryText, word: &[u8], text: &[u8])
    requires { length out.old.items + length word.now + length text.now + 2 ≤ 256 }
    ensures text { out.new.items ≡ out.old.items ++ word_text word.now text.now }
    ensures len { length out.new.items ≡ length out.old.items + length word.now + length text.now + 2 }
{
    push_bytes(out, word);
    out.push(b' ');
    push_bytes(out, text);
    out.push(b'\n');
}

// Appends a line of a word and a number.
fn push_number_line(out: &mut SummaryText, word: &[u8], number: u64)
    requires { length out.old.items + length word.now + 22 ≤ 256 }
    ensures text { out.new.items ≡ out.old.items ++ number_text word.now number }
    ensures len { length out.new.items ≤ length out.old.items + length word.now + 22 }
{
    let mut buffer = Buffer::new();
    push_word_line(out, word, buffer.format(number).as_bytes());
}

// A result, as a trace names it.
fn result_name(outcome: TestResult) -> &'static [u8]
    ensures value { result.now ≡ result_name outcome }
    ensures short { length result.now ≤ 10 }
{
    match outcome {
        TestResult::NotTested => b"NOT_TESTED",
        TestResult::Ok => b"OK",
        TestResult::NotOk => b"NOT_OK",
        TestResult::Undefined => b"UNDEFINED",
    }
}

/// The lines of a summary, with the overall result of RamTst.
pub fn summary_text(summary: &Summary, overall: TestResult) -> SummaryText
    ensures { result.items ≡ summary_text summary.now overall }
{
    let mut text = ArrayVec::new();
    push_number_line(&mut text, b"lines", u64::from(summary.lines));
    push_number_line(&mut text, b"ran", summary.ran);
    push_number_line(&mut text, b"served", u64::from(summary.served));
    push_number_line(&mut text, b"longest", u64::from(summary.longest));
    push_word_line(&mut text, b"result", result_name(overall));
    push_bytes(&mut text, &done_text(summary.lines));
    text
}
