//! Notes on files that have no configuration of a length that is read.

ghost use Rattle.std.specs.Prelude.{◌≡◌, ◌<◌, None, IfOk, IfSome, length, map};
ghost use Rattle.mt_place.specs.Places.{IsIn};
ghost use Rattle.mt_explain.specs.Notes.{IsPlain};

use crate::lines::is_separator;
use mt_place::{Mark, Note};
use std::alloc::{AllocError, Global};

// The index of a line that is the separator, with white space around it.
fn near_separator(file: &[&[u8]]) -> Option<usize>
    ensures { IfSome result (λ index. index < length file.now) }
{
    file.iter().position(|line| is_separator(line.trim_ascii()))
}

// A note on a line that is the separator, with white space around it.
fn spaced_separator(alloc: Global, file: &[&[u8]], index: usize) -> Result<Note, AllocError>
    requires { index < length file.now }
    ensures march { IfOk result (λ note. note.march ≡ None) }
    ensures mark { IfOk result (λ note. IfSome note.mark (IsIn (map (λ line. line.now) file.now))) }
{
    Ok(Note {
        mark: Some(Mark {
            line: index + 1,
            column: 1,
        }),
        length: file[index].len(),
        march: None,
        found: String::from_str(alloc, "this line has white space beside its equals signs")?,
        help: String::from_str(
            alloc,
            "write the five equals signs alone, with a line feed after them",
        )?,
    })
}

/// A note on a file without a separator: the rule 19 of configurations.
pub fn no_separator(alloc: Global, file: &[&[u8]]) -> Result<Note, AllocError>
    ensures march { IfOk result (λ note. note.march ≡ None) }
    ensures mark { IfOk result (λ note. IfSome note.mark (IsIn (map (λ line. line.now) file.now))) }
{
    if let Some(index) = near_separator(file) {
        return spaced_separator(alloc, file, index);
    }
    let count = file.len();
    let found = format!(in alloc; "none of the {count} lines of the file is =====")?;
    let help = String::from_str(
        alloc,
        "write a line of five equals signs after the configuration, and the script after it",
    )?;
    Ok(Note::of(1, found, help))
}

/// A note on a configuration of too many bytes: the rule 18 of configurations.
pub fn too_long(alloc: Global, head: &[u8]) -> Result<Note, AllocError>
    ensures { IfOk result IsPlain }
{
    let count = head.len();
    let found = format!(in alloc; "it has {count} bytes")?;
    let help = String::from_str(
        alloc,
        "leave comments out, or write a line ===== where the script begins",
    )?;
    Ok(Note::of(1, found, help))
}
