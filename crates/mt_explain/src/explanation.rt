//! The explanation of an input.

ghost use Rattle.std.specs.Prelude.{◌≡◌, ◌≤◌, ◌+◌, length, IfOk, IfSome, map, option_map, option_and_then};
ghost use Rattle.mt_verify.specs.Lines.{lines};
ghost use Rattle.mt_explain.specs.Inputs.{HasStatus};
ghost use Rattle.mt_explain.specs.Rows.{rule_in, known};
ghost use Rattle.mt_explain.specs.Notes.{IsMarkOf};
ghost use Rattle.mt_explain.specs.Explanations.{IsRowOf, IsMarchOf, IsPlaceOf, FitsLine};
ghost use Rattle.mt_explain.specs.Lines.{head_len};

use crate::file::File;
use crate::input::{Input, status_of};
use crate::lines::{head_len, line_at, lines_of};
use crate::notes::note_of;
use crate::row::{Book, Row, Rule, row_of, rule_of};
use mt_place::Note;
use mt_replay::Status;
use mt_word::NoMemory;
use std::alloc::{AllocError, Global};

/// Where an input is refused: the line of the file and the byte of it, both counted from 1, and the line's text. After
/// the last line the text is empty.
#[derive(Clone, Copy, Debug)]
pub struct Place<'a> {
    pub line: usize,
    pub column: usize,
    pub text: &'a [u8],
}

/// Why an input is refused, if it is: the status that it gives; the row of the rule, and for a refused march that of
/// the rule of marches; the place, if the text shows it; how many bytes are marked there; what was found; and what
/// would be taken.
#[derive(Drop)]
pub struct Explanation<'a> {
    pub status: Status,
    pub row: Option<&'static Row>,
    pub march: Option<&'static Row>,
    pub place: Option<Place<'a>>,
    pub length: usize,
    pub found: String,
    pub help: String,
}

fn row_by(status: &Status) -> Option<&'static Row>
    ensures { IsRowOf status.now result }
{
    match rule_of(status) {
        Some(rule) => row_of(rule),
        None => None,
    }
}

// The row of a rule of marches.
fn march_row(note: &Note) -> Option<&'static Row>
    ensures { option_map (λ r. rule_in r.now) result ≡ option_and_then known (option_map (λ number. record { book = Book.March; number = number }) note.now.march) }
{
    row_of(Rule {
        book: Book::March,
        number: note.march?,
    })
}

// Where the status or the note says that the input is refused.
fn place_of<'a>(file: &[&'a [u8]], head: usize, status: &Status, note: &Note) -> Option<Place<'a>>
    requires head { head ≡ head_len (map (λ line. line.now) file.now) }
    requires fits { head ≤ length file.now + 1 }
    requires mark { IsMarkOf (map (λ line. line.now) file.now) status.now note.now.mark }
    ensures { IsPlaceOf (map (λ line. line.now) file.now) status.now result }
{
    let (line, column) = match status {
        Status::BadScript { line, place, .. } => (head + *line as usize, *place as usize),
        _ => {
            let mark = note.mark?;
            (mark.line, mark.column)
        }
    };
    Some(Place {
        line,
        column,
        text: line_at(file, line),
    })
}

// How many bytes are marked of so many, which may reach beyond the line.
fn length_on(place: &Option<Place<'_>>, length: usize) -> usize
    ensures { IfSome place.now (FitsLine result) }
{
    match place {
        Some(place) => {
            let left = place
                .text
                .len()
                .saturating_sub(place.column.saturating_sub(1));
            length.min(left)
        }
        None => length,
    }
}

// The explanation of an input that gives a status.
fn explained<'a>(
    alloc: Global,
    input: Input,
    bytes: &'a [u8],
    status: Status,
) -> Result<Explanation<'a>, AllocError>
    ensures status { IfOk result (λ e. e.status ≡ status) }
    ensures row { IfOk result (λ e. IsRowOf status e.row) }
    ensures march { IfOk result (λ e. IsMarchOf bytes.now status e.march) }
    ensures place { IfOk result (λ e. IsPlaceOf (lines bytes.now) status e.place) }
    ensures marks { IfOk result (λ e. IfSome e.place (FitsLine e.length)) }
{
    let file = lines_of(alloc, bytes)?;
    let head = head_len(&file);
    let view = File {
        bytes,
        lines: &file,
        head,
    };
    let note = note_of(alloc, input, &view, &status)?;
    let place = place_of(&file, head, &status, &note);
    Ok(Explanation {
        status,
        row: row_by(&status),
        march: march_row(&note),
        length: length_on(&place, note.length),
        place,
        found: note.found,
        help: note.help,
    })
}

/// Explains why an input is refused.
pub fn explain<'a>(
    alloc: Global,
    input: Input,
    bytes: &'a [u8],
) -> Result<Explanation<'a>, NoMemory>
    // The status is that which `replay` answers to the bytes.
    ensures status { IfOk result (λ e. HasStatus input bytes.now e.status) }
    // The row is that of the rule by which it refuses them.
    ensures row { IfOk result (λ e. IsRowOf e.status e.row) }
    // A refused march has the row of its own rule too.
    ensures march { IfOk result (λ e. IsMarchOf bytes.now e.status e.march) }
    // The place of a refused script line is its own, and so is that of a trace that differs; each place has the text of its line.
    ensures place { IfOk result (λ e. IsPlaceOf (lines bytes.now) e.status e.place) }
    // What is marked is on that line.
    ensures marks { IfOk result (λ e. IfSome e.place (FitsLine e.length)) }
{
    let status = status_of(alloc, input, bytes)?;
    match explained(alloc, input, bytes, status) {
        Ok(explanation) => Ok(explanation),
        Err(_) => Err(NoMemory),
    }
}
