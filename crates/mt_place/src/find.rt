//! Where a key stands in the text of a configuration.

ghost use Rattle.std.specs.Prelude.{◌≡◌, ◌<◌, ◌+◌, ◌^◌, length, map, IfSome};
ghost use Rattle.mt_place.specs.Keys.{IsSpotOf, IsSpotOn};

use crate::entry::{Piece, entry_of, has_key, header_piece};
use crate::mark::{Mark, Spot};
use crate::path::Path;

/// The tables that headers have begun so far.
#[derive(Clone, Copy)]
struct Walk {
    path: Option<Path>,
    sets: usize,
    blocks: usize,
    bgnd: usize,
    fgnd: usize,
}

impl Walk {
    fn new() -> Walk {
        Walk {
            path: Some(Path::Top),
            sets: 0,
            blocks: 0,
            bgnd: 0,
            fgnd: 0,
        }
    }

    /// What a header begins.
    fn after(self, header: &[u8]) -> Walk {
        match header {
            b"[[set]]" => Walk {
                path: Some(Path::Set(self.sets)),
                sets: self.sets.saturating_add(1),
                blocks: 0,
                ..self
            },
            b"[[set.block]]" => Walk {
                path: Some(Path::Block {
                    set: self.sets.saturating_sub(1),
                    block: self.blocks,
                }),
                blocks: self.blocks.saturating_add(1),
                ..self
            },
            b"[fls]" => Walk {
                path: Some(Path::Fls),
                ..self
            },
            b"[[fls.bgnd]]" => Walk {
                path: Some(Path::Bgnd(self.bgnd)),
                bgnd: self.bgnd.saturating_add(1),
                ..self
            },
            b"[[fls.fgnd]]" => Walk {
                path: Some(Path::Fgnd(self.fgnd)),
                fgnd: self.fgnd.saturating_add(1),
                ..self
            },
            _ => Walk { path: None, ..self },
        }
    }
}

/// What is looked for: the header of a table; or a key of it, or the value there.
#[derive(Clone, Copy)]
pub enum Target<'k> {
    Header,
    Key(&'k str),
    Value(&'k str),
}

fn spot_of(line: usize, piece: Piece<'_>) -> Spot
    ensures line { result.mark.line ≡ line }
    ensures column { result.mark.column ≡ piece.entry.column }
    ensures length { result.length ≡ length piece.entry.bytes.now }
{
    Spot {
        mark: Mark {
            line,
            column: piece.column,
        },
        length: piece.bytes.len(),
    }
}

// What is looked for on a line of the table, if it is there.
fn spot_on(number: usize, line: &[u8], target: Target<'_>) -> Option<Spot>
    ensures spot { IfSome result (IsSpotOn target.entry number line.now) }
    ensures fits { IfSome result (λ spot. spot.mark.column + spot.length < 2 ^ 64) }
{
    let entry = entry_of(line)?;
    match target {
        Target::Key(key) if has_key(entry, key) => Some(spot_of(number, entry.key)),
        Target::Value(key) if has_key(entry, key) => Some(spot_of(number, entry.value)),
        _ => None,
    }
}

/// Where a key or the header of a table stands, as far as lines show it: tables have headers of their own, and keys
/// stand on lines of their own.
pub fn find_spot(file: &[&[u8]], path: Path, target: Target<'_>) -> Option<Spot>
    ensures spot { IfSome result (IsSpotOf (map (λ line. line.now) file.now) target.entry) }
    ensures fits { IfSome result (λ spot. spot.mark.column + spot.length < 2 ^ 64) }
{
    let mut walk = Walk::new();
    for (index, line) in file.iter().enumerate() {
        let number = index + 1;
        let header = header_piece(line);
        if header.bytes.starts_with(b"[") {
            walk = walk.after(header.bytes);
            if matches!(target, Target::Header) && walk.path == Some(path) {
                return Some(spot_of(number, header));
            }
        } else if walk.path == Some(path)
            && let Some(spot) = spot_on(number, line, target)
        {
            return Some(spot);
        }
    }
    None
}
