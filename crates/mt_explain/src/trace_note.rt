//! Notes on a trace that differs.

ghost use Rattle.std.specs.Prelude.{◌≡◌, ◌≤◌, ◌+◌, Some, None, IfOk, IsOkAnd, length, map};
ghost use Rattle.std.specs.Io.KnownBytes.{WriteAppends};
ghost use Rattle.mt_port.specs.Causes.{HasCause};
ghost use Rattle.mt_port.specs.Streams.{TakesSome};
ghost use Rattle.mt_explain.specs.Lines.{head_len, trace_start};

use crate::file::File;
use mt_board::SimBoard;
use mt_place::{Mark, Note, shown};
use mt_port::{Failed, PlainSource, Sink};
use mt_replay::replay;
use std::alloc::{AllocError, Global};

/// The most bytes of an expected line that are kept.
const MOST_BYTES: usize = 200;

/// A sink that keeps one line of what it takes. It never fails.
#[derive(Drop)]
struct LineSink {
    wanted: u32,
    current: u32,
    found: bool,
    text: Vec<u8>,
}

impl LineSink {
    // Takes a byte.
    fn take(&mut self, byte: u8) {
        if self.current == self.wanted {
            self.found = true;
            if byte != b'\n' && self.text.len() < MOST_BYTES {
                // What no memory is found for is left out.
                let _ = self.text.push(byte);
            }
        }
        if byte == b'\n' {
            self.current = self.current.saturating_add(1);
        }
    }
}

impl Sink for LineSink {
    ghost use Rattle.std.proofs.Common.{lit<};

    ghost held = { λ _. None };

    ghost faults = { λ _. 0 };

    ghost counted = { λ _. lit< tt };

    fn write(&mut self, piece: &[u8]) -> Result<usize, Failed>
        ensures bound { TakesSome result piece.now }
        ensures bytes { WriteAppends None None result piece.now }
        ensures cause { HasCause 0 0 result }
    {
        for byte in piece {
            self.take(*byte);
        }
        Ok(piece.len())
    }
}

// The line of the replay's trace with a number, if it has so many.
fn expected_line(alloc: Global, job: &[u8], line: u32) -> Result<Option<Vec<u8>>, AllocError> {
    let mut words = Vec::new(alloc);
    words.push(String::from_str(alloc, "run")?)?;
    let mut source = PlainSource::new(Vec::from_slice(alloc, job)?);
    let mut sink = LineSink {
        wanted: line,
        current: 1,
        found: false,
        text: Vec::new(alloc),
    };
    let _ = replay(alloc, &words, &mut source, &mut sink, &mut SimBoard::new());
    let LineSink { found, text, .. } = sink;
    if found { Ok(Some(text)) } else { Ok(None) }
}

// Whether a line is the expected one with a carriage return after it.
fn is_returned(given: Option<&[u8]>, expected: &[u8]) -> bool {
    match given {
        Some([front @ .., b'\r']) => front == expected,
        _ => false,
    }
}

/// A note on a line of the trace that is not the replay's.
pub fn trace_note(alloc: Global, file: &File<'_, '_>, line: u32) -> Result<Note, AllocError>
    requires head { file.now.head ≡ head_len (map (λ line. line.now) file.now.lines.now) }
    requires fits { file.now.head ≤ length file.now.lines.now + 1 }
    ensures march { IfOk result (λ note. note.march ≡ None) }
    ensures mark { IfOk result (λ note. note.mark ≡ Some (record { line = trace_start (map (λ line. line.now) file.now.lines.now) + line; column = 1 })) }
{
    let File { lines, head, .. } = *file;
    let number = head + file.script_len() + 1 + line as usize;
    let given = lines.get(number - 1).copied();
    let expected = expected_line(alloc, file.job_bytes(), line)?;
    let found = match &expected {
        Some(text) if is_returned(given, text) => {
            String::from_str(
                alloc,
                "a carriage return ends the line; a line feed alone is to end it",
            )?
        }
        Some(text) => {
            let text = shown(alloc, text)?;
            format!(in alloc; "the replay writes {text} as line {line} of the trace")?
        }
        None => format!(in alloc; "the trace of the replay has fewer than {line} lines")?,
    };
    let help = String::from_str(alloc, "run the job alone to see its whole trace")?;
    Ok(Note {
        mark: Some(Mark {
            line: number,
            column: 1,
        }),
        length: given.map_or(1, |text| text.len()),
        march: None,
        found,
        help,
    })
}
