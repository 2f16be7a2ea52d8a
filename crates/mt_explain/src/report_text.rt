//! An explanation as a text, in the form that compilers use.

use crate::explanation::{Explanation, Place};
use crate::row::{Book, Row};
use std::alloc::{AllocError, Global};

/// How many bytes of a line are shown, and how many of them before the place where it is long.
const WINDOW: usize = 120;

const LEAD: usize = 60;

// What a book's rules are called.
fn name_of(book: Book) -> &'static str {
    match book {
        Book::Configuration => "configuration rule",
        Book::March => "march rule",
        Book::Line => "line rule",
        Book::Trace => "trace rule",
    }
}

/// The name of a rule.
pub fn rule_name(alloc: Global, row: &Row) -> Result<String, AllocError> {
    let book = name_of(row.book);
    let number = row.number;
    format!(in alloc; "{book} {number}")
}

// Text that has no control characters.
fn printable(alloc: Global, bytes: &[u8]) -> Result<String, AllocError> {
    let text = String::from_utf8_lossy(alloc, bytes)?;
    let mut shown = String::new(alloc);
    for c in text.chars() {
        shown.push(if c.is_control() { ' ' } else { c })?;
    }
    Ok(shown)
}

// A character so many times.
fn repeated(alloc: Global, c: char, count: usize) -> Result<String, AllocError> {
    let mut text = String::new(alloc);
    for _ in 0..count {
        text.push(c)?;
    }
    Ok(text)
}

// The sentence of the rule, or of the rule of marches, with the numbers.
fn headline(alloc: Global, explanation: &Explanation<'_>) -> Result<String, AllocError> {
    let Some(row) = explanation.row else {
        return String::from_str(alloc, "");
    };
    let name = rule_name(alloc, row)?;
    match explanation.march {
        None => {
            let sentence = row.sentence;
            format!(in alloc; "error: {sentence}  ({name})\n")
        }
        Some(march) => {
            let sentence = march.sentence;
            let second = rule_name(alloc, march)?;
            format!(in alloc; "error: {sentence}  ({name}, {second})\n")
        }
    }
}

/// What is shown of a line: its text, how many characters stand before the place, and how many are marked.
#[derive(Drop)]
struct Shown {
    text: String,
    before: usize,
    marked: usize,
}

fn shown_line(alloc: Global, place: &Place<'_>, length: usize) -> Result<Shown, AllocError> {
    let line = place.text;
    let at = place.column.saturating_sub(1).min(line.len());
    let from = if at > WINDOW - 20 { at - LEAD } else { 0 };
    let to = line.len().min(from.saturating_add(WINDOW));
    let end = at.saturating_add(length).min(to);
    let before = printable(alloc, &line[from..at])?;
    let marked = printable(alloc, &line[at..end.max(at)])?;
    Ok(Shown {
        text: printable(alloc, &line[from..to.max(from)])?,
        before: before.chars().count(),
        marked: marked.chars().count().max(1),
    })
}

// The place, the line, and the marks under it.
fn excerpt(
    alloc: Global,
    file: &str,
    place: &Place<'_>,
    explanation: &Explanation<'_>,
) -> Result<String, AllocError> {
    let (number, column) = (place.line, place.column);
    let shown = shown_line(alloc, place, explanation.length)?;
    let line = format!(in alloc; "{number}")?;
    let gutter = repeated(alloc, ' ', line.len())?;
    let space = repeated(alloc, ' ', shown.before)?;
    let carets = repeated(alloc, '^', shown.marked)?;
    let text = format!(in alloc; "{line} | {}", shown.text.as_str())?;
    let text = text.as_str().trim_end();
    let found = &explanation.found;
    format!(in alloc;
        "{gutter}--> {file}:{number}:{column}\n{gutter} |\n{text}\n{gutter} | {space}{carets} {found}\n"
    )
}

// The place of an input whose text does not show it.
fn whole_file(
    alloc: Global,
    file: &str,
    explanation: &Explanation<'_>,
) -> Result<String, AllocError> {
    let found = &explanation.found;
    format!(in alloc; " --> {file}\n  = found: {found}\n")
}

/// An explanation as it is shown, of a file with this name.
pub fn report(
    alloc: Global,
    file: &str,
    explanation: &Explanation<'_>,
) -> Result<String, AllocError> {
    if explanation.row.is_none() {
        return format!(in alloc; "{file} is not refused\n");
    }
    let mut text = headline(alloc, explanation)?;
    let middle = match &explanation.place {
        Some(place) => excerpt(alloc, file, place, explanation)?,
        None => whole_file(alloc, file, explanation)?,
    };
    text.push_str(middle.as_str())?;
    if !explanation.help.is_empty() {
        let help = &explanation.help;
        let last = format!(in alloc; "  = help: {help}\n")?;
        text.push_str(last.as_str())?;
    }
    Ok(text)
}
