//! What an access is for in its sequence.

ghost use Rattle.std.specs.Prelude.{◌≤◌, length};

use arrayvec::ArrayVec;
use mt_hex::{push_bytes, push_number};
use mt_march::{March, Op};
use mt_plan::{Algorithm, Policy};

/// The step of a sequence that an access makes. Sweeps and elements are counted from 1.
#[derive(Clone, Copy, Debug, PartialEq, Eq)]
pub enum Step {
    /// A read that saves a word.
    Save,
    /// A sweep of the checkerboard over all words.
    Sweep { number: u32 },
    /// An operation of a march element.
    Element { number: u32, op: Op },
    /// A write with which a sweep of walk path or Galpat begins.
    All { sweep: u32 },
    /// An access for a base of walk path or Galpat.
    Base { sweep: u32, word: u32 },
    /// A write of a saved word.
    WriteBack,
    /// A write of the fill.
    Fill,
}

/// An attempt at a slice: its first word, its words, what becomes of them, and how many accesses the attempt has.
#[derive(Clone, Copy, Debug)]
pub struct Attempt {
    pub first: u32,
    pub words: u32,
    pub policy: Policy,
    pub accesses: u32,
}

// The quotient and the rest, if there is a divisor.
fn parted(index: u32, length: u32) -> Option<(u32, u32)> {
    if length == 0 {
        return None;
    }
    Some((index / length, index % length))
}

fn march_step(march: &March, words: u32, index: u32) -> Option<Step> {
    let mut left = index;
    for (number, element) in march.elements.as_slice().iter().enumerate() {
        let ops = element.ops.as_slice();
        let length = words.saturating_mul(ops.len() as u32);
        if left < length {
            let (_, place) = parted(left, ops.len() as u32)?;
            return Some(Step::Element {
                number: u32::try_from(number).ok()?.saturating_add(1),
                op: *ops.get(place as usize)?,
            });
        }
        left -= length;
    }
    None
}

// A sweep writes all words, and then makes so many accesses for each base.
fn sweep_step(attempt: Attempt, for_base: u32, index: u32) -> Option<Step> {
    let length = attempt.words.saturating_mul(for_base.saturating_add(1));
    let (sweeps, at) = parted(index, length)?;
    let sweep = sweeps.saturating_add(1);
    if at < attempt.words {
        return Some(Step::All { sweep });
    }
    let (base, _) = parted(at - attempt.words, for_base)?;
    Some(Step::Base {
        sweep,
        word: attempt.first.saturating_add(base),
    })
}

fn algorithm_step(algorithm: &Algorithm, attempt: Attempt, index: u32) -> Option<Step> {
    let words = attempt.words;
    match algorithm {
        Algorithm::Checkerboard => {
            let (sweeps, _) = parted(index, words)?;
            Some(Step::Sweep {
                number: sweeps.saturating_add(1),
            })
        }
        Algorithm::March(march) => march_step(march, words, index),
        Algorithm::WalkPath => sweep_step(attempt, words.saturating_add(2), index),
        Algorithm::Galpat | Algorithm::TransparentGalpat => {
            sweep_step(attempt, words.saturating_mul(2).saturating_add(1), index)
        }
    }
}

/// The step of the access with an index, counted from 0, of an attempt. The last accesses, as many as the slice has words,
/// write them back or fill them.
pub fn step_of(algorithm: &Algorithm, attempt: Attempt, index: u32) -> Option<Step> {
    let (saves, last) = match attempt.policy {
        Policy::NonDestructive => (attempt.words, Step::WriteBack),
        Policy::Destructive => (0, Step::Fill),
    };
    if index < saves {
        return Some(Step::Save);
    }
    if index >= attempt.accesses.saturating_sub(attempt.words) {
        return Some(last);
    }
    algorithm_step(algorithm, attempt, index - saves)
}

/// The text of a step: at most 40 bytes.
pub type StepText = ArrayVec<u8, 40>;

fn op_name(op: Op) -> &'static [u8]
    ensures { length result.now ≤ 2 }
{
    match op {
        Op::R0 => b"r0",
        Op::R1 => b"r1",
        Op::W0 => b"w0",
        Op::W1 => b"w1",
    }
}

// Adds what a step is called.
fn push_step(text: &mut StepText, step: Step)
    requires { length text.old.items ≤ 2 }
    ensures { length text.new.items ≤ 39 }
{
    match step {
        Step::Save => push_bytes(text, b"save"),
        Step::Sweep { number } => {
            push_bytes(text, b"sweep ");
            push_number(text, number);
        }
        Step::Element { number, op } => {
            push_bytes(text, b"element ");
            push_number(text, number);
            push_bytes(text, b", ");
            push_bytes(text, op_name(op));
        }
        Step::All { sweep } => {
            push_bytes(text, b"sweep ");
            push_number(text, sweep);
            push_bytes(text, b", all words");
        }
        Step::Base { sweep, word } => {
            push_bytes(text, b"sweep ");
            push_number(text, sweep);
            push_bytes(text, b", base ");
            push_number(text, word);
        }
        Step::WriteBack => push_bytes(text, b"write back"),
        Step::Fill => push_bytes(text, b"fill"),
    }
}

/// The text of a step, in brackets.
pub fn step_text(step: Step) -> StepText
    ensures { length result.items ≤ 40 }
{
    let mut text = ArrayVec::new();
    push_bytes(&mut text, b" (");
    push_step(&mut text, step);
    push_bytes(&mut text, b")");
    text
}
