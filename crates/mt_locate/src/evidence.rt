//! What the first miss tells of a fault.

ghost use Rattle.std.specs.Prelude.{◌≡◌, ◌<◌, [], ◌∷◌, IfSome};
ghost use Rattle.mt_word.specs.Word.{Fits, width_bits};
ghost use Rattle.mt_plan.specs.Accesses.{act_on};
ghost use Rattle.mt_locate.specs.Probes.{IsAcceptedProbe};
ghost use Rattle.mt_locate.specs.Suspects.{checked, checked_at, evidence_of, is_flipped_bit, may_answer, suspect};
ghost use Rattle.mt_locate.specs.Inner.Listing.{ExpectedFits, VictimFits};

use crate::probe::{Miss, Probe};
use mt_fault::Fault;
use mt_plan::{Act, step_at, steps};
use mt_word::{Width, bit, flip, with_bit};

/// A read whose answer is checked.
#[derive(Clone, Copy)]
pub struct CheckedRead {
    /// The cell of the slice, counted from 0.
    pub cell: u32,
    /// What it is to answer.
    pub word: u64,
}

/// What the first miss tells.
#[derive(Clone, Copy)]
pub enum Evidence {
    /// There is no miss.
    NoMiss,
    /// Its index is not that of a checked read, so no fault explains it.
    NoRead,
    /// A read of the word at an address answered another word than it was to answer.
    Read {
        addr: u32,
        expected: u64,
        answered: u64,
    },
}

/// The checked read that a step makes, if it makes one.
fn checked(width: Width, background: u64, cell: u32, act: Act) -> Option<CheckedRead>
    requires { Fits width background }
    ensures read { result ≡ checked (act_on width cell background act) }
    ensures cell { IfSome result (λ r. r.cell ≡ cell) }
    ensures fits { IfSome result (λ r. Fits width r.word) }
{
    match act {
        Act::WritePlain | Act::WriteFlipped => None,
        Act::ReadPlain => Some(CheckedRead {
            cell,
            word: background,
        }),
        Act::ReadFlipped => Some(CheckedRead {
            cell,
            word: flip(width, background),
        }),
    }
}

/// The checked read with an index among the accesses of a probe, if there is one.
pub fn checked_at(probe: &Probe, index: u32) -> Option<CheckedRead>
    requires { IsAcceptedProbe probe.now }
    ensures read { result ≡ checked_at probe.now index }
    ensures inside { IfSome result (λ r. r.cell < probe.now.n) }
    ensures fits { IfSome result (λ r. Fits probe.now.width r.word) }
{
    let n = u32::from(probe.n);
    if steps(&probe.alg, n) <= index {
        return None;
    }
    let step = step_at(&probe.alg, n, index);
    checked(
        probe.width,
        probe.background,
        u32::from(step.cell),
        step.act,
    )
}

/// What a miss tells.
fn evidence_with(probe: &Probe, miss: Miss) -> Evidence
    requires { IsAcceptedProbe probe.now }
    ensures evidence { result ≡ evidence_of probe.now (miss ∷ []) }
    ensures expected { ExpectedFits probe.now.width result }
{
    match checked_at(probe, miss.index) {
        None => Evidence::NoRead,
        Some(read) => Evidence::Read {
            addr: probe.first + read.cell,
            expected: read.word,
            answered: miss.word,
        },
    }
}

/// What the first of some misses tells.
pub fn evidence_of(probe: &Probe, misses: &[Miss]) -> Evidence
    requires { IsAcceptedProbe probe.now }
    ensures evidence { result ≡ evidence_of probe.now misses.now }
    ensures expected { ExpectedFits probe.now.width result }
{
    match misses.first() {
        None => Evidence::NoMiss,
        Some(miss) => evidence_with(probe, *miss),
    }
}

/// Whether two words differ in this bit alone.
fn is_flipped_bit(width: Width, at: u8, expected: u64, answered: u64) -> bool
    requires expected { Fits width expected }
    requires at { at < width_bits width }
    ensures { result ≡ is_flipped_bit at expected answered }
{
    with_bit(width, expected, at, !bit(expected, at)) == answered
}

/// Whether a fault may make a read of the word at an address answer so.
fn may_answer(width: Width, fault: Fault, addr: u32, expected: u64, answered: u64) -> bool
    requires expected { Fits width expected }
    requires placed { VictimFits width fault }
    ensures { result ≡ may_answer fault addr expected answered }
{
    match fault {
        Fault::StuckAt { vic, .. }
        | Fault::CannotRise { vic }
        | Fault::CannotFall { vic }
        | Fault::Invert { vic, .. }
        | Fault::Force { vic, .. }
        | Fault::State { vic, .. } => {
            vic.word == addr && is_flipped_bit(width, vic.bit, expected, answered)
        }
        Fault::NoCell { addr: lost, seen } => lost == addr && seen == answered,
        Fault::Also {
            addr: one,
            other,
            ..
        }
        | Fault::Instead { addr: one, other } => one == addr || other == addr,
    }
}

/// Whether a fault may explain misses whose first one tells this.
pub fn is_suspect(width: Width, evidence: Evidence, fault: Fault) -> bool
    requires expected { ExpectedFits width evidence }
    requires placed { VictimFits width fault }
    ensures { result ≡ suspect evidence fault }
{
    match evidence {
        Evidence::NoMiss => true,
        Evidence::NoRead => false,
        Evidence::Read {
            addr,
            expected,
            answered,
        } => may_answer(width, fault, addr, expected, answered),
    }
}
