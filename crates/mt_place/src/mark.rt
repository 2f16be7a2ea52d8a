//! Places in a file.

ghost use Rattle.std.specs.Prelude.{◌≡◌, ◌≤◌, map};
ghost use Rattle.mt_place.specs.Places.{IsIn, byte_count, bytes_before};

/// Where something stands in a file: a line and a byte of it, both counted from 1.
#[derive(Clone, Copy, Debug, PartialEq, Eq)]
pub struct Mark {
    pub line: usize,
    pub column: usize,
}

/// A place, and how many bytes are marked there.
#[derive(Clone, Copy, Debug, PartialEq, Eq)]
pub struct Spot {
    pub mark: Mark,
    pub length: usize,
}

/// The place in a file before which so many bytes stand; its end if it has fewer.
pub fn mark_at(file: &[&[u8]], index: usize) -> Mark
    ensures lies { IsIn (map (λ line. line.now) file.now) result }
    ensures exact { let lines = map (λ line. line.now) file.now in index ≤ byte_count lines → bytes_before lines result ≡ index }
{
    let mut rest = index;
    for (number, line) in file.iter().enumerate() {
        if rest <= line.len() {
            return Mark {
                line: number + 1,
                column: rest + 1,
            };
        }
        rest -= line.len() + 1;
    }
    Mark {
        line: file.len() + 1,
        column: 1,
    }
}
