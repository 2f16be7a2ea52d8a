//! What a line of a configuration shows of its key and its value.

ghost use Rattle.std.specs.Prelude.{◌≡◌, ◌≤◌, ◌<◌, ◌+◌, ◌-◌, ◌==◌, length, take, drop, IfSome, IsTrue};
ghost use Rattle.std.specs.List.{position_or_len};
ghost use Rattle.std.specs.Str.{IsTrimAscii};
ghost use Rattle.mt_place.specs.Keys.{IsBlank, IsSpelled};
ghost use Rattle.mt_place.specs.Parts.{IsPart, IsEntry};

/// A part of a line: its column, counted from 1, and its bytes.
#[derive(Clone, Copy)]
pub struct Piece<'a> {
    pub column: usize,
    pub bytes: &'a [u8],
}

/// The key and the value of a line.
#[derive(Clone, Copy)]
pub struct Entry<'a> {
    pub key: Piece<'a>,
    pub value: Piece<'a>,
}

// The index of the first such byte, or the length if there is none.
fn index_of(bytes: &[u8], byte: u8) -> usize
    ensures value { result ≡ position_or_len (λ b. b == byte) bytes.now }
    ensures fits { result ≤ length bytes.now }
{
    bytes.iter().take_while(|b| **b != byte).count()
}

// What stands before a comment, if no text is before it.
fn before_comment(line: &[u8]) -> &[u8]
    ensures front { result.now ≡ take (length result.now) line.now }
    ensures fits { length result.now ≤ length line.now }
{
    line[..index_of(line, b'#')].trim_ascii_end()
}

// How far a text in quotes goes, or a value without them.
fn value_len(rest: &[u8]) -> usize
    ensures { result ≤ length rest.now }
{
    match rest {
        [b'"', inner @ ..] => rest.len().min(index_of(inner, b'"') + 2),
        _ => before_comment(rest).len(),
    }
}

// What stands on a line from an index on, without white space and, unless it is a text, without a comment.
fn value_piece(line: &[u8], from: usize) -> Piece<'_>
    requires { from ≤ length line.now }
    ensures part { IsPart line.now result }
    ensures after { from < result.column }
    ensures gap { IsBlank line.now from (result.column - 1) }
{
    let rest = line[from..].trim_ascii_start();
    Piece {
        column: line.len() - rest.len() + 1,
        bytes: &rest[..value_len(rest)],
    }
}

// A text without the white space at its ends.
fn key_piece(front: &[u8]) -> Piece<'_>
    ensures part { IsPart front.now result }
    ensures gap { IsBlank front.now 0 (result.column - 1) }
    ensures trimmed { IsTrimAscii front.now result.bytes.now }
{
    let rest = front.trim_ascii_start();
    Piece {
        column: front.len() - rest.len() + 1,
        bytes: rest.trim_ascii_end(),
    }
}

/// The key and the value of a line, if it has them.
pub fn entry_of(line: &[u8]) -> Option<Entry<'_>>
    ensures { IfSome result (IsEntry line.now) }
{
    let equals = index_of(line, b'=');
    if equals == line.len() {
        return None;
    }
    Some(Entry {
        key: key_piece(&line[..equals]),
        value: value_piece(line, equals + 1),
    })
}

// A key without its quotes.
fn name_of<'a>(key: Piece<'a>) -> &'a [u8]
    ensures { IsSpelled result.now key.entry.bytes.now }
{
    match key.bytes {
        [b'"', name @ .., b'"'] => name,
        name => name,
    }
}

/// Whether the key of a line is this one, in quotes or without them.
pub fn has_key(entry: Entry<'_>, key: &str) -> bool
    ensures { IsTrue result → IsSpelled key.now entry.entry.key.bytes.now }
{
    name_of(entry.key) == key.as_bytes()
}

/// A header, without white space and a comment.
pub fn header_piece(line: &[u8]) -> Piece<'_>
    ensures part { IsPart line.now result }
    ensures gap { IsBlank line.now 0 (result.column - 1) }
{
    key_piece(before_comment(line))
}
