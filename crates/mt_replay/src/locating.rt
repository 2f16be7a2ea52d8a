//! Reads the lines of a fault location.

ghost use Rattle.std.specs.Prelude.{◌≡◌, ◌≤◌, ◌+◌, ℕ, All, Option, None, [], Ok, Err, length, IfOk, IfErr, OnOk, MatchResult};
ghost use Rattle.std.specs.Io.KnownBytes.{prepend_known};
ghost use Rattle.mt_word.specs.Word.{Fits};
ghost use Rattle.mt_port.specs.Board.{IsWithinLimits};
ghost use Rattle.mt_port.specs.Streams.{WhereTold};
ghost use Rattle.mt_blocks.specs.Accepted.{IsAcceptedSet};
ghost use Rattle.mt_locate.specs.Probes.{IsAcceptedProbe};
ghost use Rattle.mt_locate.specs.declared.probe.Probe.{Probe as SliceProbe};
ghost use Rattle.mt_replay.specs.Locating.{slice_said, miss_said, located};
ghost use Rattle.mt_locate.specs.LocateLines.{kind_number};
ghost use Rattle.mt_replay.specs.Inner.Runs.{IsRefusal};
ghost use Rattle.mt_replay.specs.Inner.Locating.{TextGives, OpeningGives, NextGives, PastGives, MissesGive, LocatedGives, EndCause, StopCause};

use crate::input::{Input, Line as Reading, LineText};
use crate::job::Follows;
use crate::run::End;
use arrayvec::ArrayVec;
use mt_blocks::ParamSet;
use mt_locate::{LocateRefusal, Miss, Probe, read_miss, read_slice};
use mt_port::{Shape, Source};

/// Why not all lines are taken: they end in one that is refused, or the source failed; or no memory was found for a miss.
#[derive(Clone, Copy, Debug, PartialEq, Eq)]
pub enum Stop {
    Ended(End),
    NoMemory,
}

/// The slice, and whether lines follow.
#[derive(Drop)]
pub(crate) struct Opening {
    probe: Probe,
    follows: Follows,
}

/// A miss, and whether lines follow.
#[derive(Clone, Copy, Debug, PartialEq, Eq)]
pub(crate) struct NextMiss {
    miss: Miss,
    follows: Follows,
}

// How a refused line ends all.
fn refused(number: u32, refusal: LocateRefusal) -> End
    ensures { result ≡ End.Refused number (kind_number refusal.kind) refusal.place }
{
    End::Refused {
        line: number,
        code: refusal.kind.number(),
        place: refusal.place,
    }
}

// Reads the text of the next line, where there is one. Answers whether lines follow it.
fn read_text<S: Source>(
    input: &mut Input,
    source: &mut S,
    text: &mut LineText,
    number: u32,
) -> Result<Option<Follows>, End>
    ensures gives { WhereTold (prepend_known input.old (S.left source.old))
        (prepend_known input.new (S.left source.new)) (TextGives result number text.new.items) }
    ensures none { result ≡ Err End.Broken → input.new ≡ [] }
    ensures ok { OnOk result (S.faults source.new ≡ S.faults source.old) }
    ensures err { IfErr result (λ end. EndCause end (S.faults source.old) (S.faults source.new)) }
{
    text.clear();
    match input.read_line(source, text) {
        Ok(Reading::Whole) => Ok(Some(Follows::Lines)),
        Ok(Reading::Last) => Ok(Some(Follows::Nothing)),
        Ok(Reading::End) => Ok(None),
        Ok(Reading::TooLong) => Err(End::Refused {
            line: number,
            code: 10,
            place: 1025,
        }),
        Err(_) => Err(End::Broken),
    }
}

// What the first line says.
fn judge_slice(text: &[u8], shape: Shape, initial: u64, sets: &[ParamSet]) -> Result<Probe, End>
    requires short { length text.now ≤ 1024 }
    requires limits { IsWithinLimits shape }
    requires initial { Fits shape.width initial }
    requires sets { All (IsAcceptedSet shape) sets.now }
    ensures line { result ≡ slice_said shape initial sets.now text.now }
    ensures refusal { IfErr result IsRefusal }
    ensures accepted { IfOk result IsAcceptedProbe }
    ensures width { IfOk result (λ p. p.width ≡ shape.width) }
    ensures inside { IfOk result (λ p. p.first + p.n ≤ shape.ram) }
{
    match read_slice(text, shape, initial, sets) {
        Ok(probe) => Ok(probe),
        Err(refusal) => Err(refused(1, refusal)),
    }
}

// What a later line says.
fn judge_miss(text: &[u8], probe: &Probe, after: Option<u32>, number: u32) -> Result<Miss, End>
    requires short { length text.now ≤ 1024 }
    requires few { number ≤ 1000000 }
    requires accepted { IsAcceptedProbe probe.now }
    ensures line { result ≡ miss_said probe.now number after text.now }
    ensures refusal { IfErr result IsRefusal }
{
    match read_miss(text, probe, after) {
        Ok(miss) => Ok(miss),
        Err(refusal) => Err(refused(number, refusal)),
    }
}

// Reads the line of the slice.
fn open<S: Source>(
    input: &mut Input,
    source: &mut S,
    text: &mut LineText,
    shape: Shape,
    initial: u64,
    sets: &[ParamSet],
) -> Result<Opening, End>
    requires limits { IsWithinLimits shape }
    requires initial { Fits shape.width initial }
    requires sets { All (IsAcceptedSet shape) sets.now }
    ensures gives { WhereTold (prepend_known input.old (S.left source.old))
        (prepend_known input.new (S.left source.new)) (OpeningGives result (located shape initial sets.now)) }
    ensures accepted { IfOk result (λ o. IsAcceptedProbe o.probe) }
    ensures width { IfOk result (λ o. o.probe.width ≡ shape.width) }
    ensures inside { IfOk result (λ o. o.probe.first + o.probe.n ≤ shape.ram) }
    ensures none { result ≡ Err End.Broken → input.new ≡ [] }
    ensures ok { OnOk result (S.faults source.new ≡ S.faults source.old) }
    ensures err { IfErr result (λ end. EndCause end (S.faults source.old) (S.faults source.new)) }
{
    match read_text(input, source, text, 1) {
        Ok(Some(follows)) => match judge_slice(text, shape, initial, sets) {
            Ok(probe) => Ok(Opening { probe, follows }),
            Err(end) => Err(end),
        },
        Ok(None) => Err(End::Refused {
            line: 1,
            code: 1,
            place: 1,
        }),
        Err(end) => Err(end),
    }
}

// Reads the next line, where there is one.
fn next_miss<S: Source>(
    input: &mut Input,
    source: &mut S,
    text: &mut LineText,
    probe: &Probe,
    after: Option<u32>,
    number: u32,
) -> Result<Option<NextMiss>, End>
    requires few { number ≤ 1000000 }
    requires accepted { IsAcceptedProbe probe.now }
    ensures gives { WhereTold (prepend_known input.old (S.left source.old))
        (prepend_known input.new (S.left source.new)) (NextGives result probe.now number after) }
    ensures none { result ≡ Err End.Broken → input.new ≡ [] }
    ensures ok { OnOk result (S.faults source.new ≡ S.faults source.old) }
    ensures err { IfErr result (λ end. EndCause end (S.faults source.old) (S.faults source.new)) }
{
    match read_text(input, source, text, number) {
        Ok(Some(follows)) => match judge_miss(text, probe, after, number) {
            Ok(miss) => Ok(Some(NextMiss { miss, follows })),
            Err(end) => Err(end),
        },
        Ok(None) => Ok(None),
        Err(end) => Err(end),
    }
}

// What comes behind the last line that may be: the end, or a line too many.
fn end_past<S: Source>(input: &mut Input, source: &mut S) -> Result<(), End>
    ensures gives { (probe : SliceProbe) (after : Option ℕ) → WhereTold (prepend_known input.old (S.left source.old))
        (prepend_known input.new (S.left source.new)) (PastGives result probe after) }
    ensures none { result ≡ Err End.Broken → input.new ≡ [] }
    ensures ok { OnOk result (S.faults source.new ≡ S.faults source.old) }
    ensures err { IfErr result (λ end. EndCause end (S.faults source.old) (S.faults source.new)) }
{
    match input.fill(source) {
        Ok(true) => Err(End::Refused {
            line: 1_000_001,
            code: 11,
            place: 1,
        }),
        Ok(false) => Ok(()),
        Err(_) => Err(End::Broken),
    }
}

// Reads the lines of the misses, from the second on.
fn read_misses<S: Source>(
    input: &mut Input,
    source: &mut S,
    text: &mut LineText,
    probe: &Probe,
    misses: &mut Vec<Miss>,
) -> Result<(), Stop>
    requires accepted { IsAcceptedProbe probe.now }
    requires empty { misses.old.items ≡ [] }
    ensures gives { WhereTold (prepend_known input.old (S.left source.old))
        (prepend_known input.new (S.left source.new)) (MissesGive result probe.now misses.new.items) }
    ensures none { result ≡ Err (Stop.Ended End.Broken) → input.new ≡ [] }
    ensures ok { OnOk result (S.faults source.new ≡ S.faults source.old) }
    ensures err { IfErr result (λ stop. StopCause stop (S.faults source.old) (S.faults source.new)) }
{
    let mut after = None;
    for number in 2..=1_000_000 {
        match next_miss(input, source, text, probe, after, number) {
            Ok(Some(next)) => {
                match misses.push(next.miss) {
                    Ok(()) => {}
                    Err(_) => return Err(Stop::NoMemory),
                }
                match next.follows {
                    Follows::Lines => after = Some(next.miss.index),
                    Follows::Nothing => return Ok(()),
                }
            }
            Ok(None) => return Ok(()),
            Err(end) => return Err(Stop::Ended(end)),
        }
    }
    match end_past(input, source) {
        Ok(()) => Ok(()),
        Err(end) => Err(Stop::Ended(end)),
    }
}

/// Reads the lines of a fault location that the source has left: a line `slice S B J`, over the sets of a configuration
/// whose memory has this shape, and then any number of lines `miss I WORD`. The misses are put into `misses`, in their
/// order. `initial` is the word that every cell held before.
pub(crate) fn read_located<S: Source>(
    input: &mut Input,
    source: &mut S,
    shape: Shape,
    initial: u64,
    sets: &[ParamSet],
    misses: &mut Vec<Miss>,
) -> Result<Probe, Stop>
    requires limits { IsWithinLimits shape }
    requires initial { Fits shape.width initial }
    requires sets { All (IsAcceptedSet shape) sets.now }
    requires empty { misses.old.items ≡ [] }
    ensures gives { WhereTold (prepend_known input.old (S.left source.old))
        (prepend_known input.new (S.left source.new))
        (LocatedGives result (located shape initial sets.now) misses.new.items) }
    ensures accepted { IfOk result IsAcceptedProbe }
    ensures width { IfOk result (λ p. p.width ≡ shape.width) }
    ensures inside { IfOk result (λ p. p.first + p.n ≤ shape.ram) }
    ensures none { result ≡ Err (Stop.Ended End.Broken) → input.new ≡ [] }
    ensures ok { OnOk result (S.faults source.new ≡ S.faults source.old) }
    ensures err { IfErr result (λ stop. StopCause stop (S.faults source.old) (S.faults source.new)) }
{
    let mut text = ArrayVec::new();
    match open(input, source, &mut text, shape, initial, sets) {
        Ok(Opening { probe, follows }) => match follows {
            Follows::Lines => match read_misses(input, source, &mut text, &probe, misses) {
                Ok(()) => Ok(probe),
                Err(stop) => Err(stop),
            },
            Follows::Nothing => Ok(probe),
        },
        Err(end) => Err(Stop::Ended(end)),
    }
}
