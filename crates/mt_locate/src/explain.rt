//! Whether a fault explains what was read.

ghost use Rattle.std.specs.Prelude.{◌≡◌, ◌<◌, ◌↔◌, ◌==◌, ◌||◌, ℕ, IsTrue, true, false, length, None, Some};
ghost use Rattle.mt_word.specs.Word.{Fits};
ghost use Rattle.mt_fault.specs.Items.{access_of};
ghost use Rattle.mt_fault.specs.Memory.{Memory, after_access};
ghost use Rattle.mt_fault.specs.Projection.{names};
ghost use Rattle.mt_plan.specs.Accesses.{act_on};
ghost use Rattle.mt_plan.specs.Plan.{steps_of};
ghost use Rattle.mt_locate.specs.Probes.{IsAcceptedProbe, scratch_of};
ghost use Rattle.mt_locate.specs.Moved.{IsFaultOfSlice};
ghost use Rattle.mt_locate.specs.Misses.{misses_of, told_at, wrong_answer};
ghost use Rattle.mt_locate.specs.Explanations.{accesses_of, Explains};

use crate::laws::faults_of_a_slice_stay_well_placed;
use crate::moved::moved_down;
use crate::probe::{Miss, Probe};
use crate::schedule::Schedule;
use mt_fault::{
    Cells, Fault, memory_without_a_fault_is_plain, other_words_do_not_matter, placement_is_tested,
    span_may_be_cut,
};
use mt_plan::{Act, Step, plans_are_steady};
use mt_word::{Width, flip};

/// Makes one step on the word at an address; where it is a checked read that answered another word, it answers that one.
fn wrong_answer(
    cells: &mut Cells,
    width: Width,
    addr: u32,
    background: u64,
    act: Act,
) -> Option<u64>
    requires width { width ≡ cells.old.width }
    requires addr { addr < length cells.old.words }
    requires background { Fits width background }
    ensures after { cells.new ≡ after_access cells.old (access_of (act_on width addr background act)) }
    ensures size { length cells.new.words ≡ length cells.old.words }
    ensures wrong { result ≡ wrong_answer cells.old (act_on width addr background act) }
{
    let expected = match act {
        Act::WritePlain => {
            cells.write(addr, background);
            return None;
        }
        Act::WriteFlipped => {
            cells.write(addr, flip(width, background));
            return None;
        }
        Act::ReadPlain => background,
        Act::ReadFlipped => flip(width, background),
    };
    let answer = cells.read(addr);
    (answer != expected).then_some(answer)
}

/// The words of a fault; a fault with one has it twice.
fn own_words(fault: Fault) -> (u32, u32)
    ensures { (a : ℕ) → names fault a ≡ (a == result.0 || a == result.1) }
{
    match fault {
        Fault::StuckAt { vic, .. } | Fault::CannotRise { vic } | Fault::CannotFall { vic } => {
            (vic.word, vic.word)
        }
        Fault::Invert { agg, vic, .. }
        | Fault::Force { agg, vic, .. }
        | Fault::State { agg, vic, .. } => (agg.word, vic.word),
        Fault::NoCell { addr, .. } => (addr, addr),
        Fault::Also { addr, other, .. } | Fault::Instead { addr, other } => (addr, other),
    }
}

/// Makes one step, if it is on one of two words; where it is a checked read that answered another word, it answers that
/// one.
fn own_answer(
    cells: &mut Cells,
    own: (u32, u32),
    width: Width,
    background: u64,
    step: Step,
) -> Option<u64>
    requires width { width ≡ cells.old.width }
    requires cell { step.cell < length cells.old.words }
    requires background { Fits width background }
    ensures own { (step.cell == own.0 || step.cell == own.1) ≡ true
        → (cells.new ≡ after_access cells.old (access_of (act_on width step.cell background step.act)))
        × (result ≡ wrong_answer cells.old (act_on width step.cell background step.act)) }
    ensures other { (step.cell == own.0 || step.cell == own.1) ≡ false → (cells.new ≡ cells.old) × (result ≡ None) }
    ensures size { length cells.new.words ≡ length cells.old.words }
{
    let addr = u32::from(step.cell);
    if addr == own.0 || addr == own.1 {
        return wrong_answer(cells, width, addr, background, step.act);
    }
    None
}

/// What the misses say of the access with an index, where so many of them are of accesses before it.
fn told(misses: &[Miss], before: usize, index: usize) -> Option<u64>
    ensures told { result ≡ told_at misses.now before index }
{
    match misses.get(before) {
        Some(miss) if miss.index as usize == index => Some(miss.word),
        _ => None,
    }
}

/// Makes the accesses of a probe that are of the fault's own words, up to the first of which the misses say something else
/// than it answered, and answers whether there is none. A read of another word is no miss.
fn misses_exactly(
    cells: &mut Cells,
    probe: &Probe,
    steps: &[Step],
    misses: &[Miss],
    fault: Fault,
) -> bool
    requires accepted { IsAcceptedProbe probe.now }
    requires steps { steps.now ≡ steps_of probe.now.alg probe.now.n }
    requires width { cells.old.width ≡ probe.now.width }
    requires size { length cells.old.words ≡ probe.now.n }
    requires fault { cells.old.fault ≡ Some fault }
    ensures width { cells.new.width ≡ cells.old.width }
    ensures size { length cells.new.words ≡ length cells.old.words }
    ensures exact { IsTrue result ↔ (misses_of (Some fault) cells.old.words (accesses_of probe.now) ≡ misses.now) }
{
    span_may_be_cut();
    other_words_do_not_matter();
    plans_are_steady();
    let width = cells.width();
    let own = own_words(fault);
    let mut made = 0;
    for index in 0..steps.len() {
        let wrong = own_answer(cells, own, width, probe.background, steps[index]);
        if wrong != told(misses, made, index) {
            return false;
        }
        if wrong.is_some() {
            made += 1;
        }
    }
    made == misses.len()
}

/// Writes `initial` to every word.
fn reset(cells: &mut Cells, probe: &Probe)
    requires accepted { IsAcceptedProbe probe.now }
    requires width { cells.old.width ≡ probe.now.width }
    requires sound { cells.old.fault ≡ None }
    requires size { length cells.old.words ≡ probe.now.n }
    ensures after { cells.new ≡ scratch_of probe.now }
{
    memory_without_a_fault_is_plain();
    for addr in 0..u32::from(probe.n) {
        cells.write(addr, probe.initial);
    }
}

/// Whether a fault explains the misses of a slice, by the steps of its probe.
pub fn explains_by(
    cells: &mut Cells,
    probe: &Probe,
    steps: &[Step],
    misses: &[Miss],
    fault: Fault,
) -> bool
    requires accepted { IsAcceptedProbe probe.now }
    requires steps { steps.now ≡ steps_of probe.now.alg probe.now.n }
    requires scratch { cells.old ≡ scratch_of probe.now }
    requires inside { IsFaultOfSlice probe.now.width probe.now.first probe.now.n fault }
    ensures exact { IsTrue result ↔ Explains probe.now misses.now fault }
    ensures after { cells.new ≡ scratch_of probe.now }
{
    faults_of_a_slice_stay_well_placed();
    placement_is_tested();
    let moved = moved_down(probe, fault);
    if cells.inject(moved).is_err() {
        unreachable!()
    }
    let explained = misses_exactly(cells, probe, steps, misses, moved);
    cells.heal();
    reset(cells, probe);
    explained
}

/// Whether a fault explains the misses of a slice: where it comes to the slice, each of its words `initial`, and the
/// algorithm runs, exactly these checked reads answer another word, and these words.
///
/// Addresses of the fault are those of the memory that the slice lies in. A fault that differs from the misses is left at
/// the first access that shows it. No memory is taken.
pub fn explains(cells: &mut Cells, probe: &Probe, misses: &[Miss], fault: Fault) -> bool
    requires accepted { IsAcceptedProbe probe.now }
    requires scratch { cells.old ≡ scratch_of probe.now }
    requires inside { IsFaultOfSlice probe.now.width probe.now.first probe.now.n fault }
    ensures exact { IsTrue result ↔ Explains probe.now misses.now fault }
    ensures after { cells.new ≡ scratch_of probe.now }
{
    let schedule = Schedule::new(probe);
    explains_by(cells, probe, schedule.steps(), misses, fault)
}
