//! Budgets and waits that were worked out by hand.
#![tactic(auto, using(crate::proofs::Example::checkerboard_accepted, crate::proofs::Example::one_block_accepted))]

ghost use Rattle.std.specs.Prelude.{◌≡◌, IfOk};
ghost use Rattle.mt_plan.specs.Plan.{IsAccepted};
ghost use Rattle.mt_cut.specs.Example.{checkerboard_set, one_block_set};

use crate::{Above, first_above, largest_atomic, least_ticks, next_run};
use mt_blocks::{Block, List, ParamSet, Position, Span};
use mt_march::march_c_minus;
use mt_plan::{Algorithm, Policy};
use std::alloc::{AllocError, Global};
use std::test::Fail;

// Ten words that are kept. Under March C-, slices of four words have 48 accesses, and the last one of two words has 24.
fn one_block(alloc: Global, alg: Algorithm) -> Result<ParamSet, AllocError>
    ensures { IfOk result (λ set. set ≡ one_block_set alg) }
{
    let block = Block {
        span: Span { first: 0, last: 9 },
        policy: Policy::NonDestructive,
        fill: 0,
    };
    Ok(ParamSet {
        alg,
        background: 0,
        atomic: 4,
        cells: 8,
        blocks: List::new(vec![in alloc; block]?),
        retries: 2,
    })
}

// Four words that are filled, with 20 accesses, and six that are kept, with 24 and 12.
fn two_blocks(alloc: Global) -> Result<ParamSet, AllocError>
    ensures { IfOk result (λ set. set ≡ checkerboard_set) }
{
    let filled = Block {
        span: Span { first: 0, last: 3 },
        policy: Policy::Destructive,
        fill: 0,
    };
    let kept = Block {
        span: Span { first: 4, last: 9 },
        policy: Policy::NonDestructive,
        fill: 0,
    };
    Ok(ParamSet {
        alg: Algorithm::Checkerboard,
        background: 0,
        atomic: 4,
        cells: 8,
        blocks: List::new(vec![in alloc; filled, kept]?),
        retries: 2,
    })
}

#[test]
fn ticks_of_one_block(rt: HostRuntime) -> Result<(), Fail> {
    let set = one_block(rt.alloc(), Algorithm::March(march_c_minus()))?;
    for (budget, ticks) in [
        (120, Some(1)),
        (119, Some(2)),
        (96, Some(2)),
        (95, Some(2)),
        (72, Some(2)),
        (71, Some(3)),
        (48, Some(3)),
        (47, None),
        (0, None),
        (4_294_967_295, Some(1)),
    ] {
        assert_eq!(rt; least_ticks(&set, budget), ticks, "{budget}");
    }
    assert_eq!(rt; first_above(&set, 47), Some(Above { slice: 0, hold: 48 }));
    assert_eq!(rt; first_above(&set, 48), None);
    Ok(())
}

#[test]
fn runs_of_one_block(rt: HostRuntime) -> Result<(), Fail> {
    let set = one_block(rt.alloc(), Algorithm::Checkerboard)?;
    let start = Position {
        block: 0,
        offset: 0,
    };
    let last = Position {
        block: 0,
        offset: 8,
    };
    assert_eq!(rt; next_run(&set, start, 23), None);
    assert_eq!(rt; next_run(&set, start, 47), Some(1));
    assert_eq!(rt; next_run(&set, start, 48), Some(2));
    assert_eq!(rt; next_run(&set, start, 1000), Some(3));
    assert_eq!(rt; next_run(&set, last, 11), None);
    assert_eq!(rt; next_run(&set, last, 1000), Some(1));
    Ok(())
}

#[test]
fn ticks_of_two_policies(rt: HostRuntime) -> Result<(), Fail> {
    let set = two_blocks(rt.alloc())?;
    for (budget, ticks) in [
        (56, Some(1)),
        (55, Some(2)),
        (36, Some(2)),
        (35, Some(3)),
        (24, Some(3)),
        (23, None),
    ] {
        assert_eq!(rt; least_ticks(&set, budget), ticks, "{budget}");
    }
    assert_eq!(rt; first_above(&set, 19), Some(Above { slice: 0, hold: 20 }));
    assert_eq!(rt; first_above(&set, 20), Some(Above { slice: 1, hold: 24 }));
    Ok(())
}

#[test]
fn greatest_slices(rt: HostRuntime) -> Result<(), Fail> {
    let march = one_block(rt.alloc(), Algorithm::March(march_c_minus()))?;
    for (wait, words) in [
        (10, None),
        (11, Some(1)),
        (22, Some(1)),
        (23, Some(2)),
        (46, Some(3)),
        (47, Some(4)),
        (766, Some(63)),
        (767, Some(64)),
        (4_294_967_295, Some(64)),
    ] {
        assert_eq!(rt; largest_atomic(&march, wait), words, "{wait}");
    }
    // The block that is filled would let four words pass.
    let checkerboard = two_blocks(rt.alloc())?;
    assert_eq!(rt; largest_atomic(&checkerboard, 19), Some(3));
    assert_eq!(rt; largest_atomic(&checkerboard, 4), None);
    Ok(())
}
