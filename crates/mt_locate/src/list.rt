//! The list of the faults that explain what was read.

ghost use Rattle.std.specs.Prelude.{◌≡◌, ◌<◌, ◌≤◌, ◌+◌, ◌*◌, [], ◌∷◌, length, IfOk, OnOk, OnErr};
ghost use Rattle.std.specs.List.{AllByRecursion};
ghost use Rattle.std.specs.Io.KnownBytes.{Appends};
ghost use Rattle.mt_fault.specs.Placement.{IsWithin};
ghost use Rattle.mt_plan.specs.Plan.{steps_of};
ghost use Rattle.mt_port.specs.Causes.{HasCause};
ghost use Rattle.mt_port.specs.Streams.{AppendsFront};
ghost use Rattle.mt_locate.specs.Probes.{IsAcceptedProbe, scratch_of};
ghost use Rattle.mt_locate.specs.Moved.{IsFaultOfSlice};
ghost use Rattle.mt_locate.specs.Listed.{all_seen, explaining, explains, fault_lines, faults_of, located, of_kind};
ghost use Rattle.mt_locate.specs.Inner.Places.{faults_at, faults_in, places};
ghost use Rattle.mt_locate.specs.Inner.Listing.{change, IsReady, Lists, MayHaveTables};

use crate::disturbance::to_disturbance;
use crate::evidence::{Evidence, evidence_of, is_suspect};
use crate::explain::explains_by;
use crate::faults::{Few, bit_count, coupled, crossed, on_bit, spot_at};
use crate::kinds::{Kind, kinds};
use crate::laws::{bits_decide, culprits_are_suspects, first_miss_tells_what_is_seen};
use crate::page::Page;
use crate::probe::{Miss, Probe};
use crate::schedule::Schedule;
use crate::unseen::{Unseen, stays_unseen, tables};
use mt_fault::{Cells, Fault};
use mt_plan::Step;
use mt_port::{Failed, Shape, Sink};
use mt_word::fits;

/// What the functions of a list need.
#[derive(Drop)]
struct Syndrome<'a> {
    probe: &'a Probe,
    /// The steps of the probe's algorithm.
    steps: &'a [Step],
    misses: &'a [Miss],
    evidence: Evidence,
    /// Where there is no miss, the coupling faults that nothing shows.
    unseen: Option<Unseen>,
}

/// Where there is no miss, the coupling faults that nothing shows.
fn tables_of(probe: &Probe, steps: &[Step], misses: &[Miss]) -> Option<Unseen>
    requires accepted { IsAcceptedProbe probe.now }
    requires steps { steps.now ≡ steps_of probe.now.alg probe.now.n }
    ensures { MayHaveTables probe.now misses.now result }
{
    if misses.is_empty() {
        return Some(tables(probe, steps));
    }
    None
}

/// How many places a kind has: bits, pairs of bits, words, or pairs of words.
fn places(probe: &Probe, kind: Kind) -> u32
    requires { IsAcceptedProbe probe.now }
    ensures places { result ≡ places probe.now.width probe.now.n kind }
    ensures few { result ≤ 16384 }
{
    let bits = bit_count(probe);
    let words = u32::from(probe.n);
    match kind {
        Kind::OfBit(_) => bits,
        Kind::Coupling(_) => bits * bits,
        Kind::NoCell => words,
        Kind::OfCells(_) => words * words,
    }
}

/// A word without a cell.
///
/// Each read of such a word answers `seen`, and each other word is sound. So where there is no miss there is no such
/// fault, and else the first miss tells `seen`.
fn seen_at(syndrome: &Syndrome<'_>, addr: u32) -> Few
    requires ready { IsReady syndrome.now }
    requires addr { IsWithin syndrome.now.probe.now.first syndrome.now.probe.now.n addr }
    ensures seen { explaining syndrome.now.probe.now syndrome.now.misses.now (faults_in result)
        ≡ explaining syndrome.now.probe.now syndrome.now.misses.now (all_seen syndrome.now.probe.now.width addr) }
    ensures inside { AllByRecursion (IsFaultOfSlice syndrome.now.probe.now.width syndrome.now.probe.now.first
        syndrome.now.probe.now.n) (faults_in result) }
{
    first_miss_tells_what_is_seen();
    match syndrome.misses.first() {
        Some(miss) if fits(syndrome.probe.width, miss.word) => Few::One(Fault::NoCell {
            addr,
            seen: miss.word,
        }),
        _ => Few::None,
    }
}

/// The faults of a kind at a place.
fn faults_at(syndrome: &Syndrome<'_>, kind: Kind, k: u32) -> Few
    requires ready { IsReady syndrome.now }
    requires below { k < places syndrome.now.probe.now.width syndrome.now.probe.now.n kind }
    ensures faults { explaining syndrome.now.probe.now syndrome.now.misses.now (faults_in result)
        ≡ explaining syndrome.now.probe.now syndrome.now.misses.now
        (faults_at syndrome.now.probe.now.width syndrome.now.probe.now.first syndrome.now.probe.now.n kind k) }
    ensures inside { AllByRecursion (IsFaultOfSlice syndrome.now.probe.now.width syndrome.now.probe.now.first
        syndrome.now.probe.now.n) (faults_in result) }
{
    let probe = syndrome.probe;
    let bits = bit_count(probe);
    let words = u32::from(probe.n);
    match kind {
        Kind::OfBit(kind) => on_bit(probe, kind, spot_at(probe, k)),
        Kind::Coupling(kind) => coupled(
            probe,
            kind,
            spot_at(probe, k / bits),
            spot_at(probe, k % bits),
        ),
        Kind::NoCell => seen_at(syndrome, probe.first + k),
        Kind::OfCells(kind) => {
            crossed(
                probe,
                kind,
                probe.first + k / words,
                probe.first + k % words,
            )
        }
    }
}

/// Whether a fault explains the misses.
fn is_explained(cells: &mut Cells, syndrome: &Syndrome<'_>, fault: Fault) -> bool
    requires ready { IsReady syndrome.now }
    requires scratch { cells.old ≡ scratch_of syndrome.now.probe.now }
    requires inside { IsFaultOfSlice syndrome.now.probe.now.width syndrome.now.probe.now.first
        syndrome.now.probe.now.n fault }
    ensures explained { result ≡ explains syndrome.now.probe.now syndrome.now.misses.now fault }
    ensures after { cells.new ≡ scratch_of syndrome.now.probe.now }
{
    if let Some(unseen) = &syndrome.unseen
        && let Some(coupling) = to_disturbance(fault)
    {
        bits_decide();
        return stays_unseen(unseen, syndrome.probe, coupling);
    }
    culprits_are_suspects();
    is_suspect(syndrome.probe.width, syndrome.evidence, fault)
        && explains_by(
            cells,
            syndrome.probe,
            syndrome.steps,
            syndrome.misses,
            fault,
        )
}

/// Lists a fault, where it explains the misses.
fn list_one<K: Sink>(
    cells: &mut Cells,
    syndrome: &Syndrome<'_>,
    fault: Fault,
    page: &mut Page,
    sink: &mut K,
) -> Result<u32, Failed>
    requires ready { IsReady syndrome.now }
    requires scratch { cells.old ≡ scratch_of syndrome.now.probe.now }
    requires inside { IsFaultOfSlice syndrome.now.probe.now.width syndrome.now.probe.now.first
        syndrome.now.probe.now.n fault }
    ensures lists { Lists syndrome.now.probe.now syndrome.now.misses.now (fault ∷ [])
        (change (K.held sink.old) (K.held sink.new) page.old.waiting page.new.waiting (K.faults sink.old)
        (K.faults sink.new)) result }
    ensures few { IfOk result (λ n. n ≤ 1) }
    ensures after { cells.new ≡ scratch_of syndrome.now.probe.now }
{
    if !is_explained(cells, syndrome, fault) {
        return Ok(0);
    }
    page.write(syndrome.probe.width, fault, sink)?;
    Ok(1)
}

/// Lists those of a few faults that explain the misses.
fn list_few<K: Sink>(
    cells: &mut Cells,
    syndrome: &Syndrome<'_>,
    faults: Few,
    page: &mut Page,
    sink: &mut K,
) -> Result<u32, Failed>
    requires ready { IsReady syndrome.now }
    requires scratch { cells.old ≡ scratch_of syndrome.now.probe.now }
    requires inside { AllByRecursion (IsFaultOfSlice syndrome.now.probe.now.width syndrome.now.probe.now.first
        syndrome.now.probe.now.n) (faults_in faults) }
    ensures lists { Lists syndrome.now.probe.now syndrome.now.misses.now (faults_in faults)
        (change (K.held sink.old) (K.held sink.new) page.old.waiting page.new.waiting (K.faults sink.old)
        (K.faults sink.new)) result }
    ensures few { IfOk result (λ n. n ≤ 2) }
    ensures after { cells.new ≡ scratch_of syndrome.now.probe.now }
{
    match faults {
        Few::None => Ok(0),
        Few::One(fault) => list_one(cells, syndrome, fault, page, sink),
        Few::Two(one, other) => {
            let found = list_one(cells, syndrome, one, page, sink)?;
            let more = list_one(cells, syndrome, other, page, sink)?;
            Ok(found + more)
        }
    }
}

/// Lists the faults of a kind, place after place.
fn list_kind<K: Sink>(
    cells: &mut Cells,
    syndrome: &Syndrome<'_>,
    kind: Kind,
    page: &mut Page,
    sink: &mut K,
) -> Result<u32, Failed>
    requires ready { IsReady syndrome.now }
    requires scratch { cells.old ≡ scratch_of syndrome.now.probe.now }
    ensures lists { Lists syndrome.now.probe.now syndrome.now.misses.now
        (of_kind syndrome.now.probe.now.width syndrome.now.probe.now.first syndrome.now.probe.now.n kind)
        (change (K.held sink.old) (K.held sink.new) page.old.waiting page.new.waiting (K.faults sink.old)
        (K.faults sink.new)) result }
    ensures few { IfOk result (λ n. n ≤ 32768) }
    ensures after { cells.new ≡ scratch_of syndrome.now.probe.now }
{
    let mut found = 0;
    for k in 0..places(syndrome.probe, kind) {
        found += list_few(cells, syndrome, faults_at(syndrome, kind, k), page, sink)?;
    }
    Ok(found)
}

/// Lists all faults of the slice that explain the misses, kind after kind.
fn list_kinds<K: Sink>(
    cells: &mut Cells,
    syndrome: &Syndrome<'_>,
    page: &mut Page,
    sink: &mut K,
) -> Result<u32, Failed>
    requires ready { IsReady syndrome.now }
    requires scratch { cells.old ≡ scratch_of syndrome.now.probe.now }
    ensures lists { Lists syndrome.now.probe.now syndrome.now.misses.now
        (faults_of syndrome.now.probe.now.width syndrome.now.probe.now.first syndrome.now.probe.now.n)
        (change (K.held sink.old) (K.held sink.new) page.old.waiting page.new.waiting (K.faults sink.old)
        (K.faults sink.new)) result }
    ensures after { cells.new ≡ scratch_of syndrome.now.probe.now }
{
    let mut found = 0;
    for kind in &kinds() {
        found += list_kind(cells, syndrome, *kind, page, sink)?;
    }
    Ok(found)
}

/// Writes the line of each fault of the slice that explains the misses, as a script would inject it, and answers how
/// many there are.
///
/// The kinds come in the order of the script's table, and faults of one kind in the order of the fields of their lines,
/// one field after another: numbers rising, `up` before `down`, `and` before `or`. Each fault comes once. No memory is
/// taken.
pub fn list_faults<K: Sink>(
    cells: &mut Cells,
    probe: &Probe,
    misses: &[Miss],
    shape: Shape,
    sink: &mut K,
) -> Result<u32, Failed>
    requires accepted { IsAcceptedProbe probe.now }
    requires scratch { cells.old ≡ scratch_of probe.now }
    requires width { shape.width ≡ probe.now.width }
    requires inside { probe.now.first + probe.now.n ≤ shape.ram }
    ensures ok { OnOk result
        (Appends (K.held sink.old) (K.held sink.new) (fault_lines shape.width (located probe.now misses.now))) }
    ensures number { IfOk result (λ n. n ≡ length (located probe.now misses.now)) }
    ensures err { OnErr result
        (AppendsFront (K.held sink.old) (K.held sink.new) (fault_lines shape.width (located probe.now misses.now))) }
    ensures cause { HasCause (K.faults sink.old) (K.faults sink.new) result }
    ensures after { cells.new ≡ scratch_of probe.now }
{
    let schedule = Schedule::new(probe);
    let steps = schedule.steps();
    let syndrome = Syndrome {
        probe,
        steps,
        misses,
        evidence: evidence_of(probe, misses),
        unseen: tables_of(probe, steps, misses),
    };
    let mut page = Page::new();
    let found = list_kinds(cells, &syndrome, &mut page, sink)?;
    page.waiting.flush(sink)?;
    Ok(found)
}
