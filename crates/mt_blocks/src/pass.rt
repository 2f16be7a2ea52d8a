//! Slices, passes, groups and ticks.

ghost use Rattle.std.specs.Prelude.{ℕ, ◌≡◌, ◌≤◌, ◌+◌, ◌*◌, ◌∷◌, length, map, IfSome};
ghost use Rattle.mt_blocks.specs.Slices.{AreSpans, IsValid, span_at, slice_of, ends_block, next_of, next_in, or_start, start_of, from_place, from_next, piece_at, pass};
ghost use Rattle.mt_blocks.specs.Groups.{group_len, ticks};

use crate::span::{HasSpan, span_in};
use mt_seq::Slice;

/// A slice of a pass: the number of its block, and the offset of its first word in the block.
#[derive(Clone, Copy, Debug, PartialEq, Eq)]
pub struct Position {
    pub block: u32,
    pub offset: u32,
}

/// The slice at a position: `atomic` words, or what is left of its block.
pub fn slice_at<T: HasSpan>(blocks: &[T], atomic: u32, at: Position) -> Slice
    requires blocks { AreSpans atomic (map T.span_of blocks.now) }
    requires valid { IsValid atomic (map T.span_of blocks.now) at }
    ensures slice { result ≡ slice_of atomic (span_at (map T.span_of blocks.now) at.block) at.offset }
    ensures some { 1 ≤ result.n }
    ensures small { result.n ≤ 64 }
    ensures inside { result.first + result.n ≤ (span_at (map T.span_of blocks.now) at.block).last + 1 }
{
    let span = span_in(blocks, at.block);
    let left = span.last - span.first + 1 - at.offset;
    Slice {
        first: span.first + at.offset,
        n: left.min(atomic) as u8,
    }
}

/// Whether the slice at a position is the last of its block.
pub fn is_last<T: HasSpan>(blocks: &[T], atomic: u32, at: Position) -> bool
    requires blocks { AreSpans atomic (map T.span_of blocks.now) }
    requires valid { IsValid atomic (map T.span_of blocks.now) at }
    ensures { result ≡ ends_block atomic (span_at (map T.span_of blocks.now) at.block) at.offset }
{
    let span = span_in(blocks, at.block);
    span.last - span.first + 1 - at.offset <= atomic
}

// The position of the next slice; none after the pass's last.
fn next_place<T: HasSpan>(blocks: &[T], atomic: u32, at: Position) -> Option<Position>
    requires blocks { AreSpans atomic (map T.span_of blocks.now) }
    requires valid { IsValid atomic (map T.span_of blocks.now) at }
    ensures { result ≡ next_of atomic (map T.span_of blocks.now) at }
{
    let span = span_in(blocks, at.block);
    let left = span.last - span.first + 1 - at.offset;
    if atomic < left {
        Some(Position {
            block: at.block,
            offset: at.offset + atomic,
        })
    } else if at.block + 1 < blocks.len() as u32 {
        Some(Position {
            block: at.block + 1,
            offset: 0,
        })
    } else {
        None
    }
}

/// The position of the next slice; none after the pass's last.
pub fn following<T: HasSpan>(blocks: &[T], atomic: u32, at: Position) -> Option<Position>
    requires blocks { AreSpans atomic (map T.span_of blocks.now) }
    requires valid { IsValid atomic (map T.span_of blocks.now) at }
    ensures next { result ≡ next_of atomic (map T.span_of blocks.now) at }
    ensures valid { IfSome result (IsValid atomic (map T.span_of blocks.now)) }
    // The slices of a pass from a position on are its own, and then those from the next one on.
    ensures rest { from_place atomic (map T.span_of blocks.now) at
        ≡ piece_at atomic (map T.span_of blocks.now) at ∷ from_next atomic (map T.span_of blocks.now) result }
{
    next_place(blocks, atomic, at)
}

/// How many slices the group has that begins at a position.
pub fn group_len<T: HasSpan>(blocks: &[T], atomic: u32, cells: u32, at: Position) -> u32
    requires blocks { AreSpans atomic (map T.span_of blocks.now) }
    requires valid { IsValid atomic (map T.span_of blocks.now) at }
    requires cells { atomic ≤ cells }
    ensures len { result ≡ group_len cells (from_place atomic (map T.span_of blocks.now) at) }
    ensures few { result ≤ cells }
{
    let mut left = cells;
    let mut len = 0;
    let mut next = Some(at);
    while let Some(place) = next {
        let slice = slice_at(blocks, atomic, place);
        if u32::from(slice.n) > left {
            break;
        }
        left -= u32::from(slice.n);
        len += 1;
        next = following(blocks, atomic, place);
    }
    len
}

/// The position of the next slice of a test, which goes to the end of the pass where it is `whole`, and else to the end
/// of the block; none after its last.
pub fn next_of_test<T: HasSpan>(
    blocks: &[T],
    atomic: u32,
    at: Position,
    whole: bool,
) -> Option<Position>
    requires blocks { AreSpans atomic (map T.span_of blocks.now) }
    requires valid { IsValid atomic (map T.span_of blocks.now) at }
    ensures { result ≡ next_in whole atomic (map T.span_of blocks.now) at }
{
    if !whole && is_last(blocks, atomic, at) {
        return None;
    }
    following(blocks, atomic, at)
}

/// A position, or where there is none the start of a pass.
pub fn or_start(next: Option<Position>) -> Position
    ensures { result ≡ or_start next }
{
    match next {
        None => Position {
            block: 0,
            offset: 0,
        },
        Some(at) => at,
    }
}

/// The position of a pass's first slice; none where there is no block.
pub fn first_place<T: HasSpan>(blocks: &[T]) -> Option<Position>
    ensures first { result ≡ start_of (map T.span_of blocks.now) }
    ensures valid { (K : ℕ) → AreSpans K (map T.span_of blocks.now)
        → IfSome result (IsValid K (map T.span_of blocks.now)) }
    ensures all { (K : ℕ) → AreSpans K (map T.span_of blocks.now)
        → from_next K (map T.span_of blocks.now) result ≡ pass K (map T.span_of blocks.now) }
    // A pass has at most as many slices as words.
    ensures few { (K : ℕ) → AreSpans K (map T.span_of blocks.now)
        → length (pass K (map T.span_of blocks.now)) ≤ 64 * 65536 }
{
    if blocks.is_empty() {
        return None;
    }
    Some(Position {
        block: 0,
        offset: 0,
    })
}

/// How many ticks a whole pass takes: the number of its groups.
pub fn ticks_of<T: HasSpan>(blocks: &[T], atomic: u32, cells: u32) -> u32
    requires blocks { AreSpans atomic (map T.span_of blocks.now) }
    requires cells { atomic ≤ cells }
    ensures { result ≡ ticks cells (pass atomic (map T.span_of blocks.now)) }
{
    let mut ticks = 0;
    let mut left = 0;
    let mut next = first_place(blocks);
    while let Some(place) = next {
        let words = u32::from(slice_at(blocks, atomic, place).n);
        if words <= left {
            left -= words;
        } else {
            ticks += 1;
            left = cells - words;
        }
        next = following(blocks, atomic, place);
    }
    ticks
}
