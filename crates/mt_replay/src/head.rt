//! Reads the configuration of a job.

ghost use Rattle.std.specs.Prelude.{◌≡◌, ◌<◌, ◌≤◌, ◌++◌, ◌∷◌, [], ℕ, length, drop, OnErr, IfOk, vec_len, vec_capacity};
ghost use Rattle.std.specs.Io.KnownBytes.{prepend_known};
ghost use Rattle.mt_port.specs.Causes.{HasCause};
ghost use Rattle.mt_port.specs.Streams.{WhereTold};
ghost use Rattle.std.specs.Str.{bytes_eq};
ghost use Rattle.mt_replay.specs.Input.{separator};
ghost use Rattle.mt_replay.specs.Inner.Head.{HeadGives, HeadBreaks, ByteGives};

use crate::input::Input;
use mt_port::{Failed, Source};

/// What came of reading the configuration: the separator was found, with its line feed or at the input's end; the input
/// ended without one; or the configuration is too long, whatever comes.
#[derive(Clone, Copy, Debug, PartialEq, Eq)]
pub enum Head {
    Parted,
    PartedAtEnd,
    Whole,
    TooLong,
}

/// The bytes of the longest configuration, and of a separator with its line feed.
pub const HEAD_ROOM: usize = 65_542;

const SEPARATOR: &[u8] = b"=====";

// Appends a byte where there is room.
fn keep(kept: &mut Vec<u8>, byte: u8)
    requires { vec_len kept.old < vec_capacity kept.old }
    ensures items { kept.new.items ≡ kept.old.items ++ byte ∷ [] }
    ensures room { vec_capacity kept.old ≤ vec_capacity kept.new }
{
    match kept.push(byte) {
        Ok(()) => {}
        // The room is reserved.
        Err(_) => unreachable!(),
    }
}

// Whether the line from `start` on is the separator.
fn is_separator(kept: &[u8], start: usize) -> bool
    requires { start ≤ length kept.now }
    ensures { result ≡ bytes_eq (drop start kept.now) separator }
{
    &kept[start..] == SEPARATOR
}

// Takes one more byte of the configuration, whose last line begins at `start`. Answers where it begins then, or none
// where the byte ends the separator's line.
fn take_byte(kept: &mut Vec<u8>, start: usize, byte: u8) -> Option<usize>
    requires within { start ≤ vec_len kept.old }
    requires room { vec_len kept.old < vec_capacity kept.old }
    ensures step { ByteGives result start byte kept.old.items kept.new.items }
    ensures room { vec_capacity kept.old ≤ vec_capacity kept.new }
{
    if byte != b'\n' {
        keep(kept, byte);
        return Some(start);
    }
    if is_separator(kept, start) {
        kept.truncate(start);
        return None;
    }
    keep(kept, byte);
    Some(kept.len())
}

/// Reads the bytes of the configuration, up to and with the line that ends it.
pub fn read_head<S: Source>(
    input: &mut Input,
    source: &mut S,
    kept: &mut Vec<u8>,
) -> Result<Head, Failed>
    requires empty { kept.old.items ≡ [] }
    requires room { HEAD_ROOM ≤ vec_capacity kept.old }
    ensures ok { IfOk result (λ head. WhereTold (prepend_known input.old (S.left source.old))
        (prepend_known input.new (S.left source.new)) (HeadGives head kept.new.items)) }
    ensures err { OnErr result (WhereTold (prepend_known input.old (S.left source.old))
        (prepend_known input.new (S.left source.new)) HeadBreaks) }
    ensures none { OnErr result (input.new ≡ []) }
    ensures cause { HasCause (S.faults source.old) (S.faults source.new) result }
{
    let mut start = 0;
    while input.fill(source)? {
        let byte = input.take_byte();
        match take_byte(kept, start, byte) {
            None => return Ok(Head::Parted),
            Some(next) => start = next,
        }
        if kept.len() == HEAD_ROOM {
            return Ok(Head::TooLong);
        }
    }
    if is_separator(kept, start) {
        kept.truncate(start);
        return Ok(Head::PartedAtEnd);
    }
    Ok(Head::Whole)
}
