//! What breaks a rule of configurations: a table, a key of it, and what is wrong there.

ghost use Rattle.std.specs.Prelude.{◌≡◌, None, IfOk, IfSome, map};
ghost use Rattle.mt_place.specs.Keys.{IsSpotOf};

use crate::find::{Target, find_spot};
use crate::note::Note;
use crate::path::{Path, Placed};
use std::alloc::{AllocError, Global};
use toml::Table;

/// The table that breaks a rule; the table and the key of it at which it does; what was found; and what would be taken.
#[derive(Drop)]
pub struct Finding<'t> {
    pub path: Path,
    pub place: Path,
    pub target: Target<'t>,
    pub found: String,
    pub help: String,
}

impl<'t> Finding<'t> {
    /// The note, with its place if the text shows it, and with the table's name.
    pub fn note(self, alloc: Global, file: &[&[u8]]) -> Result<Note, AllocError>
        ensures march { IfOk result (λ note. note.march ≡ None) }
        ensures spot { IfOk result (λ note. IfSome note.mark (λ mark. IsSpotOf (map (λ line. line.now) file.now) self.entry.target (record { mark = mark; length = note.length }))) }
    {
        let Finding {
            path,
            place,
            target,
            found,
            help,
        } = self;
        let name = path.name(alloc)?;
        let text = format!(in alloc; "in {name}, {found}")?;
        match find_spot(file, place, target) {
            Some(spot) => Ok(Note {
                mark: Some(spot.mark),
                length: spot.length,
                march: None,
                found: text,
                help,
            }),
            None => Ok(Note::of(1, text, help)),
        }
    }
}

/// The whole number at a key; 0 if there is none.
pub fn number(table: &Table, key: &str) -> i64 {
    match table.get(key) {
        Some(value) => value.as_integer().unwrap_or(0),
        None => 0,
    }
}

/// The text at a key; the empty one if there is none.
pub fn text<'t>(table: &'t Table, key: &str) -> &'t str {
    match table.get(key) {
        Some(value) => value.as_str().unwrap_or(""),
        None => "",
    }
}

/// The top table, which is the first.
pub fn top<'t>(tables: &[Placed<'t>]) -> Option<&'t Table> {
    match tables {
        [first, ..] => Some(first.table),
        [] => None,
    }
}

/// A value that is not within its range.
pub fn out_of_range<'t>(
    alloc: Global,
    placed: Placed<'t>,
    key: &'static str,
    range: (i64, i64),
) -> Result<Option<Finding<'t>>, AllocError>
    ensures { IfOk result (λ found. IfSome found (λ f. f.target ≡ Target.Value key.entry)) }
{
    let value = number(placed.table, key);
    let (low, high) = range;
    if low <= value && value <= high {
        return Ok(None);
    }
    Ok(Some(Finding {
        path: placed.path,
        place: placed.path,
        target: Target::Value(key),
        found: format!(in alloc; "{key} is {value}")?,
        help: format!(in alloc; "write {low} to {high}")?,
    }))
}
