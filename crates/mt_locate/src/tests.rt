ghost use Rattle.std.specs.Prelude.{◌≡◌, ◌≤◌};
ghost use Rattle.mt_locate.specs.Moved.{IsFaultOfSlice};
ghost use Rattle.mt_locate.specs.Probes.{IsAcceptedProbe};

use super::*;
use mt_fault::{Fault, Spot};
use mt_plan::Algorithm;
use mt_port::{MemSink, Shape};
use mt_word::Width;
use std::alloc::Global;
use std::test::Fail;

// Checkerboard on the words 5 and 6, of eight bits, that hold 0.
fn two_words() -> Probe
    ensures accepted { IsAcceptedProbe result }
    ensures width { result.width ≡ Width.W8 }
    ensures first { result.first ≡ 5 }
    ensures n { result.n ≡ 2 }
{
    Probe {
        alg: Algorithm::Checkerboard,
        background: 0,
        width: Width::W8,
        initial: 0,
        first: 5,
        n: 2,
    }
}

fn explains_two_words(alloc: Global, misses: &[Miss], fault: Fault) -> Result<bool, Fail>
    requires { IsFaultOfSlice Width.W8 5 2 fault }
{
    let probe = two_words();
    let mut cells = scratch(alloc, &probe)?;
    Ok(explains(&mut cells, &probe, misses, fault))
}

#[test]
fn one_miss(rt: HostRuntime) -> Result<(), Fail> {
    // Word 5 is written 0 at first, and its read with index 2 answers 1.
    let misses = [Miss { index: 2, word: 1 }];
    let vic = Spot { word: 5, bit: 0 };
    let stuck = Fault::StuckAt { vic, value: true };
    assert!(rt; explains_two_words(rt.alloc(), &misses, stuck)?);
    let stuck = Fault::StuckAt { vic, value: false };
    assert!(rt; !explains_two_words(rt.alloc(), &misses, stuck)?);
    // Word 6 is written after word 5, with ones.
    let agg = Spot { word: 6, bit: 7 };
    let inverted = Fault::Invert {
        agg,
        rise: true,
        vic,
    };
    assert!(rt; explains_two_words(rt.alloc(), &misses, inverted)?);
    let inverted = Fault::Invert {
        agg,
        rise: false,
        vic,
    };
    assert!(rt; !explains_two_words(rt.alloc(), &misses, inverted)?);
    Ok(())
}

#[test]
fn the_whole_list_counts(rt: HostRuntime) -> Result<(), Fail> {
    // Without a cell, word 6 answers 0 where ones are read, and 0 where 0 is.
    let none = Fault::NoCell { addr: 6, seen: 0 };
    let first = Miss { index: 3, word: 0 };
    let late = Miss { index: 7, word: 1 };
    assert!(rt; explains_two_words(rt.alloc(), &[first], none)?);
    assert!(rt; !explains_two_words(rt.alloc(), &[], none)?);
    assert!(rt; !explains_two_words(rt.alloc(), &[first, late], none)?);
    assert!(rt; !explains_two_words(rt.alloc(), &[Miss { index: 3, word: 1 }], none)?);
    // With 1 seen, both reads go wrong.
    let none = Fault::NoCell { addr: 6, seen: 1 };
    let both = [Miss { index: 3, word: 1 }, late];
    assert!(rt; explains_two_words(rt.alloc(), &both, none)?);
    assert!(rt; !explains_two_words(rt.alloc(), &both[..1], none)?);
    Ok(())
}

#[test]
fn no_miss(rt: HostRuntime) -> Result<(), Fail> {
    // On one word checkerboard writes 0 and then ones, so nothing falls.
    let probe = Probe {
        alg: Algorithm::Checkerboard,
        background: 0,
        width: Width::W8,
        initial: 0,
        first: 0,
        n: 1,
    };
    let mut cells = scratch(rt.alloc(), &probe)?;
    let vic = Spot { word: 0, bit: 7 };
    // The same words serve for one fault after another.
    assert!(rt; explains(&mut cells, &probe, &[], Fault::CannotFall { vic }));
    assert!(rt; !explains(&mut cells, &probe, &[], Fault::CannotRise { vic }));
    assert!(rt; !explains(&mut cells, &probe, &[], Fault::StuckAt { vic, value: true }));
    assert!(rt; explains(&mut cells, &probe, &[], Fault::CannotFall { vic }));
    Ok(())
}

// What is listed for a probe.
fn listed(
    alloc: Global,
    probe: &Probe,
    misses: &[Miss],
    room: usize,
) -> Result<(MemSink, u32), Fail>
    requires { IsAcceptedProbe probe.now }
{
    let shape = Shape {
        width: probe.width,
        ram: 65_536,
        flash: 0,
    };
    let mut cells = scratch(alloc, probe)?;
    let mut sink = MemSink::new(alloc, room, Vec::new(alloc))?;
    let found = list_faults(&mut cells, probe, misses, shape, &mut sink)
        .ok()
        .ok_or("the sink has no more room")?;
    Ok((sink, found))
}

// Checkerboard on the words from 0 on, of eight bits, that hold 0.
pub(crate) fn checkerboard_on(n: u8) -> Probe
    requires some { 1 ≤ n }
    requires few { n ≤ 16 }
    ensures { IsAcceptedProbe result }
{
    Probe {
        alg: Algorithm::Checkerboard,
        background: 0,
        width: Width::W8,
        initial: 0,
        first: 0,
        n,
    }
}

#[test]
fn faults_of_one_miss_on_two_words(rt: HostRuntime) -> Result<(), Fail> {
    let misses = [Miss { index: 2, word: 1 }];
    let (sink, found) = listed(rt.alloc(), &checkerboard_on(2), &misses, 2000)?;
    assert_eq!(rt; found, 33);
    let expected: &[u8] = b"inject sa 0.0 1
inject cfin up 1.0 0.0
inject cfin up 1.1 0.0
inject cfin up 1.2 0.0
inject cfin up 1.3 0.0
inject cfin up 1.4 0.0
inject cfin up 1.5 0.0
inject cfin up 1.6 0.0
inject cfin up 1.7 0.0
inject cfid up 1.0 0.0 1
inject cfid up 1.1 0.0 1
inject cfid up 1.2 0.0 1
inject cfid up 1.3 0.0 1
inject cfid up 1.4 0.0 1
inject cfid up 1.5 0.0 1
inject cfid up 1.6 0.0 1
inject cfid up 1.7 0.0 1
inject cfst 0 1.0 0.0 1
inject cfst 0 1.1 0.0 1
inject cfst 0 1.2 0.0 1
inject cfst 0 1.3 0.0 1
inject cfst 0 1.4 0.0 1
inject cfst 0 1.5 0.0 1
inject cfst 0 1.6 0.0 1
inject cfst 0 1.7 0.0 1
inject cfst 1 1.0 0.0 1
inject cfst 1 1.1 0.0 1
inject cfst 1 1.2 0.0 1
inject cfst 1 1.3 0.0 1
inject cfst 1 1.4 0.0 1
inject cfst 1 1.5 0.0 1
inject cfst 1 1.6 0.0 1
inject cfst 1 1.7 0.0 1
";
    assert!(rt; sink.bytes() == expected);
    Ok(())
}

#[test]
fn faults_without_a_miss_on_one_word(rt: HostRuntime) -> Result<(), Fail> {
    let (sink, found) = listed(rt.alloc(), &checkerboard_on(1), &[], 1000)?;
    assert_eq!(rt; found, 8);
    let expected: &[u8] = b"inject tf-down 0.0
inject tf-down 0.1
inject tf-down 0.2
inject tf-down 0.3
inject tf-down 0.4
inject tf-down 0.5
inject tf-down 0.6
inject tf-down 0.7
";
    assert!(rt; sink.bytes() == expected);
    Ok(())
}
