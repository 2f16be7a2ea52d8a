//! The note on an input, by its status.

ghost use Rattle.std.specs.Prelude.{◌≡◌, ◌≤◌, ◌+◌, ◌-◌, IfOk, IfSome, length, map, take};
ghost use Rattle.mt_place.specs.Places.{byte_count, IsIn};
ghost use Rattle.mt_place.specs.Marches.{march_rule};
ghost use Rattle.mt_explain.specs.Lines.{head_len};
ghost use Rattle.mt_explain.specs.Notes.{IsPlain, IsMarkOf, march_number};

use crate::file::{File, script_line};
use crate::head_note::{no_separator, too_long};
use crate::input::Input;
use crate::location_note::{Located, location_note};
use crate::script_note::{Refused, limit_note, script_note};
use crate::trace_note::trace_note;
use mt_conf::{Config, read_config};
use mt_place::{Note, config_note};
use mt_replay::Status;
use std::alloc::{AllocError, Global};

// A note on a line that is refused by its tokens.
fn token_note<'a>(
    alloc: Global,
    input: Input,
    code: u8,
    line: Refused<'a>,
    before: Option<&'a [u8]>,
    config: &Config,
) -> Result<Note, AllocError>
    ensures { IfOk result IsPlain }
{
    match input {
        Input::Location => location_note(
            alloc,
            code,
            Located {
                line,
                before: before.unwrap_or(&[]),
                first: before.is_none(),
                config,
            },
        ),
        _ => script_note(alloc, code, config.shape, line),
    }
}

fn line_note(
    alloc: Global,
    input: Input,
    file: &File<'_, '_>,
    code: u8,
    number: usize,
    place: u32,
) -> Result<Note, AllocError>
    ensures { IfOk result IsPlain }
{
    let line = Refused {
        text: script_line(file, number),
        place,
    };
    if matches!(code, 10 | 11 | 16 | 17) {
        return limit_note(alloc, code, line);
    }
    let before = if number > 1 {
        Some(script_line(file, number - 1))
    } else {
        None
    };
    match read_config(alloc, file.config()) {
        Ok(config) => token_note(alloc, input, code, line, before, &config),
        Err(_) => Ok(Note::new(alloc)),
    }
}

// A note on a refused configuration.
fn head_note(alloc: Global, code: u8, file: &File<'_, '_>) -> Result<Note, AllocError>
    ensures mark { IfOk result (λ note. IfSome note.mark (IsIn (map (λ line. line.now) file.now.lines.now))) }
    ensures march { let head = map (λ line. line.now) (take (file.now.head - 1) file.now.lines.now) in
        IfOk result (λ note. note.march ≡ march_rule code (take 65536 (take (byte_count head) file.now.bytes.now))) }
{
    match code {
        18 => too_long(alloc, file.head_bytes()),
        19 => no_separator(alloc, file.head_lines()),
        _ => config_note(alloc, code, file.config(), file.head_lines()),
    }
}

/// What is shown of a refusal beside its sentence.
pub fn note_of(
    alloc: Global,
    input: Input,
    file: &File<'_, '_>,
    status: &Status,
) -> Result<Note, AllocError>
    requires head { file.now.head ≡ head_len (map (λ line. line.now) file.now.lines.now) }
    requires fits { file.now.head ≤ length file.now.lines.now + 1 }
    ensures mark { IfOk result (λ note. IsMarkOf (map (λ line. line.now) file.now.lines.now) status.now note.mark) }
    ensures march { let head = map (λ line. line.now) (take (file.now.head - 1) file.now.lines.now) in
        IfOk result (λ note. note.march ≡ march_number status.now (take 65536 (take (byte_count head) file.now.bytes.now))) }
{
    match status {
        Status::BadConfig { code } => head_note(alloc, *code, file),
        Status::BadScript { line, code, place } => {
            line_note(alloc, input, file, *code, *line as usize, *place)
        }
        Status::Differs { line } => trace_note(alloc, file, *line),
        _ => Ok(Note::new(alloc)),
    }
}
