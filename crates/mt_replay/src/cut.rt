//! The fewest ticks of a pass, as text.

ghost use Rattle.std.specs.Prelude.{◌≡◌, ◌≤◌, ℕ, All, None, OnOk, OnErr, IfOk, IsOk, slice_get, IfSome};
ghost use Rattle.std.specs.Io.KnownBytes.{prepend_known, Appends};
ghost use Rattle.mt_port.specs.Causes.{HasCause};
ghost use Rattle.mt_port.specs.Streams.{AppendsFront};
ghost use Rattle.mt_cut.specs.Holds.{IsOfAccepted, pass_holds};
ghost use Rattle.mt_cut.specs.Cuts.{first_above, longest_runs};
ghost use Rattle.mt_replay.specs.Cut.{tick_text, count_text, ticks_text, no_cut_text, pass_text, largest_text, set_text, chosen_text};

use crate::form::Ask;
use crate::text::Text;
use arrayvec::ArrayVec;
use mt_blocks::{List, ParamSet};
use mt_cut::{Above, Run, first_above, largest_atomic, pass_start, run_from};
use mt_hex::{push_bytes, push_number};
use mt_port::{Failed, Sink, put};
use std::alloc::{AllocError, Global};

// The line of a tick.
fn tick_text(number: u32, run: &Run) -> Text
    ensures { result.items ≡ tick_text number run.now.slices run.now.accesses }
{
    let mut text = ArrayVec::new();
    push_bytes(&mut text, b"tick ");
    push_number(&mut text, number);
    push_bytes(&mut text, b" slices ");
    push_number(&mut text, run.slices);
    push_bytes(&mut text, b" accesses ");
    push_number(&mut text, run.accesses);
    push_bytes(&mut text, b"\n");
    text
}

// The line that counts the ticks.
fn count_text(ticks: u32) -> Text
    ensures { result.items ≡ count_text ticks }
{
    let mut text = ArrayVec::new();
    push_bytes(&mut text, b"ticks ");
    push_number(&mut text, ticks);
    push_bytes(&mut text, b"\n");
    text
}

// The line of a slice that alone is above the budget.
fn no_cut_text(above: &Above) -> Text
    ensures { result.items ≡ no_cut_text above.now.slice above.now.hold }
{
    let mut text = ArrayVec::new();
    push_bytes(&mut text, b"no cut ");
    push_number(&mut text, above.slice);
    push_bytes(&mut text, b" ");
    push_number(&mut text, above.hold);
    push_bytes(&mut text, b"\n");
    text
}

// The line of the greatest slice.
fn largest_text(words: Option<u32>) -> Text
    ensures { result.items ≡ largest_text words }
{
    let mut text = ArrayVec::new();
    push_bytes(&mut text, b"largest ");
    match words {
        Some(words) => push_number(&mut text, words),
        None => push_bytes(&mut text, b"none"),
    }
    push_bytes(&mut text, b"\n");
    text
}

// Writes the ticks of the cut in which each run in turn is the longest, and how many they are.
fn write_ticks<K: Sink>(sink: &mut K, set: &ParamSet, budget: u32) -> Result<(), Failed>
    requires set { IsOfAccepted set.now }
    requires low { All (λ hold. hold ≤ budget) (pass_holds set.now) }
    ensures ok { OnOk result (Appends (K.held sink.old) (K.held sink.new)
        (ticks_text (longest_runs budget (pass_holds set.now)) (pass_holds set.now))) }
    ensures err { OnErr result (AppendsFront (K.held sink.old) (K.held sink.new)
        (ticks_text (longest_runs budget (pass_holds set.now)) (pass_holds set.now))) }
    ensures cause { HasCause (K.faults sink.old) (K.faults sink.new) result }
{
    let mut ticks = 0;
    let mut next = pass_start(set);
    while let Some(at) = next {
        match run_from(set, at, budget) {
            Some(run) => {
                ticks += 1;
                put(sink, &tick_text(ticks, &run))?;
                next = run.next;
            }
            // No slice alone is above the budget.
            None => unreachable!(),
        }
    }
    put(sink, &count_text(ticks))
}

// Writes the first slice that alone is above the budget, or where there is none the ticks.
fn write_pass<K: Sink>(sink: &mut K, set: &ParamSet, budget: u32) -> Result<(), Failed>
    requires { IsOfAccepted set.now }
    ensures ok { OnOk result (Appends (K.held sink.old) (K.held sink.new)
        (pass_text budget (pass_holds set.now) (first_above budget (pass_holds set.now)))) }
    ensures err { OnErr result (AppendsFront (K.held sink.old) (K.held sink.new)
        (pass_text budget (pass_holds set.now) (first_above budget (pass_holds set.now)))) }
    ensures cause { HasCause (K.faults sink.old) (K.faults sink.new) result }
{
    match first_above(set, budget) {
        Some(above) => put(sink, &no_cut_text(&above)),
        None => write_ticks(sink, set, budget),
    }
}

// Writes what is told of a set.
fn write_set<K: Sink>(sink: &mut K, set: &ParamSet, ask: Ask) -> Result<(), Failed>
    requires { IsOfAccepted set.now }
    ensures ok { OnOk result (Appends (K.held sink.old) (K.held sink.new) (set_text ask set.now)) }
    ensures err { OnErr result (AppendsFront (K.held sink.old) (K.held sink.new) (set_text ask set.now)) }
    ensures cause { HasCause (K.faults sink.old) (K.faults sink.new) result }
{
    write_pass(sink, set, ask.budget)?;
    put(sink, &largest_text(largest_atomic(set, ask.wait)))
}

/// Writes what is told of the set that is asked for, or that there is none.
pub fn write_chosen<K: Sink>(sink: &mut K, set: &Option<ParamSet>, ask: Ask) -> Result<(), Failed>
    requires { IfSome set.now IsOfAccepted }
    ensures ok { OnOk result (Appends (K.held sink.old) (K.held sink.new) (chosen_text ask set.now)) }
    ensures err { OnErr result (AppendsFront (K.held sink.old) (K.held sink.new) (chosen_text ask set.now)) }
    ensures cause { HasCause (K.faults sink.old) (K.faults sink.new) result }
{
    match set {
        Some(set) => write_set(sink, set, ask),
        None => put(sink, b"no set\n"),
    }
}

// A copy of a set.
fn copied(alloc: Global, set: &ParamSet) -> Result<ParamSet, AllocError>
    ensures { IfOk result (λ copy. copy ≡ set.now) }
{
    let blocks = Vec::from_slice(alloc, set.blocks.as_slice())?;
    Ok(ParamSet {
        alg: set.alg.copy(),
        background: set.background,
        atomic: set.atomic,
        cells: set.cells,
        blocks: List::new(blocks),
        retries: set.retries,
    })
}

/// A copy of the set with this number; none where there is none, and then no memory is taken.
pub fn chosen(alloc: Global, sets: &[ParamSet], number: u32) -> Result<Option<ParamSet>, AllocError>
    ensures set { IfOk result (λ set. set ≡ slice_get sets.now number) }
    ensures none { slice_get sets.now number ≡ None → IsOk result }
{
    match sets.get(number as usize) {
        Some(set) => Ok(Some(copied(alloc, set)?)),
        None => Ok(None),
    }
}
