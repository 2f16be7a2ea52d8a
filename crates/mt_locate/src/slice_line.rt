//! The line `slice S B J`: a set, a block of it, and a slice of that.

ghost use Rattle.std.specs.Prelude.{◌≡◌, ◌<◌, ◌≤◌, ◌+◌, ◌*◌, All, false, length, IfOk, OnOk, map};
ghost use Rattle.mt_word.specs.Word.{Fits, width_bits};
ghost use Rattle.mt_port.specs.Board.{IsWithinLimits};
ghost use Rattle.mt_seq.specs.Sequence.{is_transparent};
ghost use Rattle.mt_blocks.specs.Accepted.{IsAcceptedBlock, IsAcceptedSet, set_at, block_at};
ghost use Rattle.mt_blocks.specs.Slices.{slice_count};
ghost use Rattle.mt_locate.specs.Probes.{IsAcceptedProbe};
ghost use Rattle.mt_locate.specs.Inner.Located.{IsLocatedSlice};
ghost use Rattle.mt_locate.specs.LocateLines.{block_number, few_bits, known_set, known_block, known_slice, probe_of, set_number, slice_line, slice_words};

use crate::probe::Probe;
use crate::refusal::{LocateKind, LocateRefusal};
use crate::words::{Placed, ends_at, keyword, number_at, refused};
use mt_blocks::{ParamSet, Span};
use mt_plan::Algorithm;
use mt_port::Shape;
use mt_seq::Slice;
use mt_word::{Width, bits};

/// The set with a number, whose algorithm is not transparent Galpat.
fn known_set(sets: &[ParamSet], number: Placed) -> Result<usize, LocateRefusal>
    ensures known { result ≡ known_set sets.now number }
    ensures inside { IfOk result (λ s. s < length sets.now) }
    ensures fixed { IfOk result (λ s. is_transparent (set_at sets.now s).alg ≡ false) }
{
    let index = number.value as usize;
    if sets.len() <= index {
        return refused(LocateKind::SliceUnknown, number.place);
    }
    match sets[index].alg {
        Algorithm::TransparentGalpat => refused(LocateKind::NotLocated, number.place),
        _ => Ok(index),
    }
}

#[tactic(auto, unfolding(crate::specs::LocateLines::set_number))]
fn set_number(text: &[u8], sets: &[ParamSet]) -> Result<usize, LocateRefusal>
    requires { length text.now ≤ 1024 }
    ensures number { result ≡ set_number sets.now text.now }
    ensures inside { IfOk result (λ s. s < length sets.now) }
    ensures fixed { IfOk result (λ s. is_transparent (set_at sets.now s).alg ≡ false) }
{
    match number_at(text, 1) {
        Ok(number) => known_set(sets, number),
        Err(refusal) => Err(refusal),
    }
}

/// The block of the set with a number.
fn known_block(set: &ParamSet, number: Placed) -> Result<usize, LocateRefusal>
    ensures known { result ≡ known_block set.now number }
    ensures inside { IfOk result (λ b. b < length set.now.blocks) }
{
    let index = number.value as usize;
    if set.blocks.as_slice().len() <= index {
        return refused(LocateKind::SliceUnknown, number.place);
    }
    Ok(index)
}

#[tactic(auto, unfolding(crate::specs::LocateLines::block_number))]
fn block_number(text: &[u8], set: &ParamSet) -> Result<usize, LocateRefusal>
    requires { length text.now ≤ 1024 }
    ensures number { result ≡ block_number set.now text.now }
    ensures inside { IfOk result (λ b. b < length set.now.blocks) }
{
    match number_at(text, 2) {
        Ok(number) => known_block(set, number),
        Err(refusal) => Err(refusal),
    }
}

/// How many slices a span is cut into.
fn slice_count(atomic: u32, span: Span) -> u32
    requires some { 1 ≤ atomic }
    requires small { atomic ≤ 64 }
    requires ordered { span.first ≤ span.last }
    requires limit { span.last < 65536 }
    ensures { result ≡ slice_count atomic span }
{
    (span.last - span.first + atomic) / atomic
}

/// A slice of at most 128 bits.
fn few_bits(width: Width, place: u32, slice: Slice) -> Result<Slice, LocateRefusal>
    requires { slice.n ≤ 64 }
    ensures few { result ≡ few_bits (width_bits width) place slice }
    ensures bits { IfOk result (λ s. s.n * width_bits width ≤ 128) }
    ensures same { IfOk result (λ s. s ≡ slice) }
{
    if u32::from(slice.n) * bits(width) > 128 {
        return refused(LocateKind::TooManyBits, place);
    }
    Ok(slice)
}

/// The slice of the span with a number.
fn known_slice(
    shape: Shape,
    set: &ParamSet,
    span: Span,
    number: Placed,
) -> Result<Slice, LocateRefusal>
    requires some { 1 ≤ set.now.atomic }
    requires small { set.now.atomic ≤ 64 }
    requires ordered { span.first ≤ span.last }
    requires limit { span.last < 65536 }
    ensures known { result ≡ known_slice shape set.now span number }
    ensures slice { IfOk result (IsLocatedSlice shape.width span) }
{
    let atomic = set.atomic;
    if u64::from(slice_count(atomic, span)) <= number.value {
        return refused(LocateKind::SliceUnknown, number.place);
    }
    let offset = number.value as u32 * atomic;
    let left = span.last - span.first + 1 - offset;
    let slice = Slice {
        first: span.first + offset,
        n: left.min(atomic) as u8,
    };
    few_bits(shape.width, number.place, slice)
}

#[tactic(auto, unfolding(crate::specs::LocateLines::slice_words))]
fn slice_words(
    text: &[u8],
    shape: Shape,
    set: &ParamSet,
    span: Span,
) -> Result<Slice, LocateRefusal>
    requires short { length text.now ≤ 1024 }
    requires some { 1 ≤ set.now.atomic }
    requires small { set.now.atomic ≤ 64 }
    requires ordered { span.first ≤ span.last }
    requires limit { span.last < 65536 }
    ensures words { result ≡ slice_words shape set.now span text.now }
    ensures slice { IfOk result (IsLocatedSlice shape.width span) }
{
    match number_at(text, 3) {
        Ok(number) => known_slice(shape, set, span, number),
        Err(refusal) => Err(refusal),
    }
}

/// The probe of a slice of a set.
fn probe_of(shape: Shape, initial: u64, set: &ParamSet, slice: Slice) -> Probe
    requires initial { Fits shape.width initial }
    requires set { IsAcceptedSet shape set.now }
    requires fixed { is_transparent set.now.alg ≡ false }
    requires limit { shape.ram ≤ 65536 }
    requires some { 1 ≤ slice.n }
    requires small { slice.n ≤ 64 }
    requires bits { slice.n * width_bits shape.width ≤ 128 }
    requires inside { slice.first + slice.n ≤ shape.ram }
    ensures probe { result ≡ probe_of shape initial set.now slice }
    ensures accepted { IsAcceptedProbe result }
{
    Probe {
        alg: set.alg.copy(),
        background: set.background,
        width: shape.width,
        initial,
        first: slice.first,
        n: slice.n,
    }
}

/// Reads a line `slice S B J` without its line feed: a set, a block of it and a slice of that, each by its number from 0
/// on. `initial` is the word that every cell held before.
///
/// A line that is refused tells the least rule that its first wrong token breaks, with its place.
#[tactic(auto, unfolding(crate::specs::LocateLines::slice_line))]
pub fn read_slice(
    text: &[u8],
    shape: Shape,
    initial: u64,
    sets: &[ParamSet],
) -> Result<Probe, LocateRefusal>
    requires short { length text.now ≤ 1024 }
    requires limits { IsWithinLimits shape }
    requires initial { Fits shape.width initial }
    requires sets { All (IsAcceptedSet shape) sets.now }
    ensures line { result ≡ slice_line shape initial sets.now text.now }
    ensures accepted { IfOk result IsAcceptedProbe }
    ensures width { IfOk result (λ p. p.width ≡ shape.width) }
    ensures inside { IfOk result (λ p. p.first + p.n ≤ shape.ram) }
{
    keyword(text, b"slice")?;
    let set = &sets[set_number(text, sets)?];
    let block = set.blocks.as_slice()[block_number(text, set)?];
    let slice = slice_words(text, shape, set, block.span)?;
    ends_at(text, 4)?;
    Ok(probe_of(shape, initial, set, slice))
}
