ghost use Rattle.std.specs.Prelude.{◌≢◌};
ghost use Rattle.mt_plan.specs.Plan.{IsAccepted};

use super::*;
use mt_fault::{Cells, Fault};
use mt_march::{march_c_minus, mats_plus};
use mt_plan::Algorithm;
use mt_word::Width;
use std::alloc::Global;
use std::test::Fail;

// What is caught on four words of eight bits, all zero, with a fault or without.
fn caught_on_four(alloc: Global, fault: Option<Fault>, alg: &Algorithm) -> Result<Option<u32>, Fail>
    requires accepted { IsAccepted alg.now }
    requires fixed { alg.now ≢ Algorithm.TransparentGalpat }
{
    let mut cells = Cells::new(alloc, Width::W8, 4, 0)?;
    if let Some(fault) = fault {
        cells.inject(fault).ok().ok_or("the fault is refused")?;
    }
    Ok(caught_at(&mut cells, alg, 0, 0, 4))
}

#[test]
fn instead_of_a_word_another(rt: HostRuntime) -> Result<(), Fail> {
    let instead = Fault::Instead { addr: 1, other: 2 };
    let march = Algorithm::March(march_c_minus());
    // The write of word 1 goes to word 2, before word 2 is read.
    assert_eq!(rt; caught_on_four(rt.alloc(), Some(instead), &march)?, Some(8));
    assert_eq!(rt;
        caught_on_four(rt.alloc(), Some(instead), &Algorithm::Galpat)?,
        Some(17)
    );
    assert_eq!(rt; caught_on_four(rt.alloc(), None, &march)?, None);
    assert_eq!(rt; caught_on_four(rt.alloc(), None, &Algorithm::Galpat)?, None);
    Ok(())
}

#[test]
fn other_decoder_faults(rt: HostRuntime) -> Result<(), Fail> {
    let mats = Algorithm::March(mats_plus());
    // Word 2 is written with word 1, before it is read.
    let also = Fault::Also {
        addr: 1,
        other: 2,
        wired_and: false,
    };
    assert_eq!(rt; caught_on_four(rt.alloc(), Some(also), &mats)?, Some(8));
    // The first read that expects ones is that of word 3, with which the element downwards begins.
    let no_cell = Fault::NoCell { addr: 3, seen: 0 };
    assert_eq!(rt; caught_on_four(rt.alloc(), Some(no_cell), &mats)?, Some(12));
    // Words 0 and 2 are written alike by checkerboard.
    let instead = Fault::Instead { addr: 0, other: 2 };
    assert_eq!(rt;
        caught_on_four(rt.alloc(), Some(instead), &Algorithm::Checkerboard)?,
        None
    );
    Ok(())
}
