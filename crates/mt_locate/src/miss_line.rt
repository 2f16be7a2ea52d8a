//! A line `miss I WORD`: a read that answered another word than it was to answer.

ghost use Rattle.std.specs.Prelude.{◌≡◌, ◌<◌, ◌≤◌, ◌^◌, length};
ghost use Rattle.mt_locate.specs.Probes.{IsAcceptedProbe};
ghost use Rattle.mt_locate.specs.LocateLines.{answered_word, falls, known_read, known_word, miss_line, of_read, read_index};

use crate::evidence::{CheckedRead, checked_at};
use crate::probe::{Miss, Probe};
use crate::refusal::{LocateKind, LocateRefusal};
use crate::words::{Placed, ends_at, keyword, number_at, refused, word_at};
use mt_word::fits;

/// Whether an index is not above the one before it.
fn falls(after: Option<u32>, index: u32) -> bool
    ensures { result ≡ falls after index }
{
    match after {
        None => false,
        Some(before) => index <= before,
    }
}

/// The checked read with an index, and the word that it is to answer.
fn of_read(place: u32, index: u32, read: Option<CheckedRead>) -> Result<(u32, u64), LocateRefusal>
    ensures { result ≡ of_read place index read }
{
    match read {
        None => refused(LocateKind::MissOrder, place),
        Some(read) => Ok((index, read.word)),
    }
}

fn known_read(
    probe: &Probe,
    after: Option<u32>,
    number: Placed,
) -> Result<(u32, u64), LocateRefusal>
    requires accepted { IsAcceptedProbe probe.now }
    requires number { number.value < 2 ^ 32 }
    ensures { result ≡ known_read probe.now after number }
{
    let index = number.value as u32;
    if falls(after, index) {
        return refused(LocateKind::MissOrder, number.place);
    }
    of_read(number.place, index, checked_at(probe, index))
}

#[tactic(auto, unfolding(crate::specs::LocateLines::read_index))]
fn read_index(text: &[u8], probe: &Probe, after: Option<u32>) -> Result<(u32, u64), LocateRefusal>
    requires short { length text.now ≤ 1024 }
    requires accepted { IsAcceptedProbe probe.now }
    ensures { result ≡ read_index probe.now after text.now }
{
    match number_at(text, 1) {
        Ok(number) => known_read(probe, after, number),
        Err(refusal) => Err(refusal),
    }
}

fn known_word(probe: &Probe, expected: u64, word: Placed) -> Result<u64, LocateRefusal>
    ensures { result ≡ known_word probe.now expected word }
{
    if !fits(probe.width, word.value) {
        return refused(LocateKind::WordTooWide, word.place);
    }
    if word.value == expected {
        return refused(LocateKind::MissOrder, word.place);
    }
    Ok(word.value)
}

#[tactic(auto, unfolding(crate::specs::LocateLines::answered_word))]
fn answered_word(text: &[u8], probe: &Probe, expected: u64) -> Result<u64, LocateRefusal>
    requires { length text.now ≤ 1024 }
    ensures { result ≡ answered_word probe.now expected text.now }
{
    match word_at(text, 2) {
        Ok(word) => known_word(probe, expected, word),
        Err(refusal) => Err(refusal),
    }
}

/// Reads a line `miss I WORD` without its line feed: the index of a checked read among the accesses of the algorithm,
/// counted from 0, and what it answered. `after` is the index of the line before, if there is one.
///
/// A line that is refused tells the least rule that its first wrong token breaks, with its place.
#[tactic(auto, unfolding(crate::specs::LocateLines::miss_line))]
pub fn read_miss(text: &[u8], probe: &Probe, after: Option<u32>) -> Result<Miss, LocateRefusal>
    requires short { length text.now ≤ 1024 }
    requires accepted { IsAcceptedProbe probe.now }
    ensures { result ≡ miss_line probe.now after text.now }
{
    keyword(text, b"miss")?;
    let (index, expected) = read_index(text, probe, after)?;
    let word = answered_word(text, probe, expected)?;
    ends_at(text, 3)?;
    Ok(Miss { index, word })
}
