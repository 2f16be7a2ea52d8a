//! The slice that is tested under a hold.

ghost use Rattle.std.specs.Prelude.{◌≤◌, length, IfSome};

use mt_blocks::HasSpan;

/// Which blocks a slice is of: those of a parameter set of RamTst, or the background or foreground blocks of FlsTst.
#[derive(Clone, Copy, Debug, PartialEq, Eq)]
pub enum Blocks {
    Ram,
    Background,
    Foreground,
}

impl Blocks {
    /// What one of them is called.
    pub fn name(self) -> &'static [u8]
        ensures { length result.now ≤ 5 }
    {
        match self {
            Blocks::Ram => b"block",
            Blocks::Background => b"bgnd",
            Blocks::Foreground => b"fgnd",
        }
    }
}

/// A slice: the number of its block, and its first and last word.
#[derive(Clone, Copy, Debug, PartialEq, Eq)]
pub struct Place {
    pub block: u32,
    pub first: u32,
    pub last: u32,
}

/// The slice in which an address lies, if it lies in a block. Slices have so many words, and the last one of a block may
/// have fewer.
pub fn place_of<T: HasSpan>(blocks: &[T], words: u32, addr: u32) -> Option<Place>
    ensures { IfSome result (λ place. (place.first ≤ addr) × (addr ≤ place.last)) }
{
    if words == 0 {
        return None;
    }
    for (number, block) in blocks.iter().enumerate() {
        let span = block.span();
        if span.first <= addr && addr <= span.last {
            let first = addr - (addr - span.first) % words;
            return Some(Place {
                block: u32::try_from(number).ok()?,
                first,
                last: span.last.min(first.saturating_add(words - 1)),
            });
        }
    }
    None
}
