//! Notes on refused configurations.

ghost use Rattle.std.specs.Prelude.{◌≡◌, ◌≢◌, ◌≤◌, None, Some, IfOk, IfSome, length, map};
ghost use Rattle.mt_conf.specs.Outcome.{outcome};
ghost use Rattle.mt_place.specs.Places.{IsIn};
ghost use Rattle.mt_place.specs.Keys.{MarksSome};
ghost use Rattle.mt_place.specs.Subjects.{IsAt, MarksAt, rule_keys};
ghost use Rattle.mt_place.specs.Marches.{broken_march, march_rule};

use crate::block_finding::{cells, destructive, overlap, range};
use crate::finding::{Finding, text};
use crate::flash_finding::{copy, flash};
use crate::march_note::{RefusedMarch, march_note};
use crate::mark::mark_at;
use crate::note::Note;
use crate::path::{Path, Placed, tables_of};
use crate::shape_finding::{missing_key, unknown_key, wrong_type};
use crate::value_finding::{count, name, size, version, width, word};
use mt_conf::{ConfigRefusal, read_config};
use std::alloc::{AllocError, Global};
use toml::Table;

// What breaks a rule, by its number.
fn finding<'t>(
    alloc: Global,
    code: u8,
    top: &'t Table,
    tables: &[Placed<'t>],
) -> Result<Option<Finding<'t>>, AllocError>
    ensures { 5 ≤ code → code ≢ 11 → IfOk result (λ found. IfSome found (λ f. IsAt (rule_keys code) f.target)) }
{
    match code {
        2 => unknown_key(alloc, tables),
        3 => missing_key(alloc, tables),
        4 => wrong_type(alloc, tables),
        5 => Ok(Some(version(alloc, top)?)),
        6 => Ok(Some(width(alloc, top)?)),
        7 => size(
            alloc,
            Placed {
                path: Path::Top,
                table: top,
            },
        ),
        8 => word(alloc, tables),
        9 => count(alloc, tables),
        10 => name(alloc, tables),
        12 => destructive(alloc, tables),
        13 => range(alloc, tables),
        14 => overlap(alloc, tables),
        15 => cells(alloc, tables),
        16 => flash(alloc, tables),
        _ => copy(alloc, tables),
    }
}

// The text of a set's march.
fn march_text<'t>(tables: &[Placed<'t>], set: u32) -> &'t str {
    for placed in tables {
        if placed.path == Path::Set(set as usize) {
            return text(placed.table, "march");
        }
    }
    ""
}

// The table of a configuration, if it is a document.
fn document(alloc: Global, head: &[u8]) -> Option<Table> {
    let Ok(text) = std::str::from_utf8(head) else {
        return None;
    };
    match toml::table_from_str(alloc, text) {
        Ok(top) => Some(top),
        Err(_) => None,
    }
}

// A note on a refused march, whose text is sought in the document.
fn quoted_march(
    alloc: Global,
    head: &[u8],
    file: &[&[u8]],
    march: RefusedMarch<'_>,
) -> Result<Note, AllocError>
    ensures march { IfOk result (λ note. note.march ≡ Some march.entry.kind) }
    ensures mark { IfOk result (λ note. IfSome note.mark (IsIn (map (λ line. line.now) file.now))) }
{
    let Some(top) = document(alloc, head) else {
        return march_note(alloc, march, file);
    };
    let tables = tables_of(alloc, &top)?;
    let text = march_text(tables.as_slice(), march.set).as_bytes();
    march_note(alloc, RefusedMarch { text, ..march }, file)
}

// The march that is refused.
fn refused_march(alloc: Global, head: &[u8], file: &[&[u8]]) -> Result<Note, AllocError>
    requires { length head.now ≤ 65536 }
    ensures march { IfOk result (λ note. note.march ≡ broken_march (outcome head.now)) }
    ensures mark { IfOk result (λ note. IfSome note.mark (IsIn (map (λ line. line.now) file.now))) }
{
    match read_config(alloc, head) {
        Err(ConfigRefusal::March { set, kind, place }) => quoted_march(
            alloc,
            head,
            file,
            RefusedMarch {
                set,
                kind: kind.number(),
                place,
                text: &[],
            },
        ),
        Err(ConfigRefusal::NoMemory) => Err(AllocError),
        _ => Ok(Note::new(alloc)),
    }
}

// What the TOML reader says of a text that it refuses.
fn no_document(alloc: Global, head: &[u8], file: &[&[u8]]) -> Result<Note, AllocError>
    ensures march { IfOk result (λ note. note.march ≡ None) }
    ensures mark { IfOk result (λ note. IfSome note.mark (IsIn (map (λ line. line.now) file.now))) }
{
    let text = match std::str::from_utf8(head) {
        Ok(text) => text,
        Err(error) => {
            let found = String::from_str(alloc, "these bytes are no UTF-8")?;
            let mut note = Note::of(1, found, String::new(alloc));
            note.mark = Some(mark_at(file, error.valid_up_to()));
            return Ok(note);
        }
    };
    match toml::table_from_str(alloc, text) {
        Ok(_) => Ok(Note::new(alloc)),
        Err(error) => {
            let found = String::from_str(alloc, error.message())?;
            let mut note = Note::of(1, found, String::new(alloc));
            if let Some(span) = error.span() {
                note.mark = Some(mark_at(file, span.start));
                note.length = span.end.saturating_sub(span.start).max(1);
            }
            Ok(note)
        }
    }
}

// A note on a configuration that breaks a rule on its tables.
#[tactic(auto, using(crate::proofs::SpotLemmas::marks_some, crate::proofs::SpotLemmas::marks_at))]
fn table_note(alloc: Global, code: u8, head: &[u8], file: &[&[u8]]) -> Result<Note, AllocError>
    ensures march { IfOk result (λ note. note.march ≡ None) }
    ensures spot { IfOk result (MarksSome (map (λ line. line.now) file.now)) }
    ensures key { 5 ≤ code → code ≢ 11 → IfOk result (MarksAt (rule_keys code) (map (λ line. line.now) file.now)) }
    ensures mark { IfOk result (λ note. IfSome note.mark (IsIn (map (λ line. line.now) file.now))) }
{
    let Some(top) = document(alloc, head) else {
        return Ok(Note::new(alloc));
    };
    let tables = tables_of(alloc, &top)?;
    match finding(alloc, code, &top, tables.as_slice())? {
        Some(finding) => finding.note(alloc, file),
        None => Ok(Note::new(alloc)),
    }
}

/// A note on a configuration that is refused by one of the rules 1 to 17: its bytes, and the lines of the file.
pub fn config_note(alloc: Global, code: u8, head: &[u8], file: &[&[u8]]) -> Result<Note, AllocError>
    requires { length head.now ≤ 65536 }
    // A refused march has the number of its own rule too.
    ensures march { IfOk result (λ note. note.march ≡ march_rule code head.now) }
    // By a rule on tables a header, a key or a value is marked.
    ensures spot { code ≢ 1 → code ≢ 11 → IfOk result (MarksSome (map (λ line. line.now) file.now)) }
    // By a rule on values one of its keys, the value there or the header of a table is marked.
    ensures key { 5 ≤ code → code ≢ 11 → IfOk result (MarksAt (rule_keys code) (map (λ line. line.now) file.now)) }
    // Each place is in the file.
    ensures mark { IfOk result (λ note. IfSome note.mark (IsIn (map (λ line. line.now) file.now))) }
{
    match code {
        1 => no_document(alloc, head, file),
        11 => refused_march(alloc, head, file),
        _ => table_note(alloc, code, head, file),
    }
}
