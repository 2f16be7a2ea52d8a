// How the lines of a slice and of its misses are read.

ghost use Rattle.std.specs.Prelude.{◌≤◌, length};
ghost use Rattle.mt_plan.specs.Plan.{IsAccepted};

use super::*;
use crate::tests::checkerboard_on;
use mt_blocks::{Block, List, ParamSet, Span};
use mt_plan::{Algorithm, Policy};
use mt_port::Shape;
use mt_word::Width;
use std::alloc::Global;
use std::test::Fail;

// How a line `slice` is read where there is one set, of one block from word 1 to word 9.
fn slice_of(
    alloc: Global,
    text: &[u8],
    width: Width,
    alg: Algorithm,
) -> Result<Result<Probe, LocateRefusal>, Fail>
    requires short { length text.now ≤ 1024 }
    requires accepted { IsAccepted alg }
{
    let block = Block {
        span: Span { first: 1, last: 9 },
        policy: Policy::NonDestructive,
        fill: 0,
    };
    let set = ParamSet {
        alg,
        background: 0,
        atomic: 4,
        cells: 8,
        blocks: List::new(vec![in alloc; block]?),
        retries: 2,
    };
    let shape = Shape {
        width,
        ram: 10,
        flash: 0,
    };
    Ok(read_slice(text, shape, 0, &[set]))
}

// Why such a line is refused, by the number of the rule and the place.
fn slice_refusal(
    alloc: Global,
    text: &[u8],
    width: Width,
    alg: Algorithm,
) -> Result<Option<(u8, u32)>, Fail>
    requires short { length text.now ≤ 1024 }
    requires accepted { IsAccepted alg }
{
    let refusal = slice_of(alloc, text, width, alg)?.err();
    Ok(refusal.map(|refusal| (refusal.kind.number(), refusal.place)))
}

#[test]
fn a_slice_is_read(rt: HostRuntime) -> Result<(), Fail> {
    let probe = slice_of(rt.alloc(), b" slice 0 0  2", Width::W8, Algorithm::WalkPath)?
        .ok()
        .ok_or("the line is refused")?;
    assert_eq!(rt; (probe.first, probe.n), (9, 1));
    Ok(())
}

#[test]
fn a_slice_is_refused(rt: HostRuntime) -> Result<(), Fail> {
    let refused = [
        (b"slice 1 0 0".as_slice(), 12, 7),
        (b"slice 0 1 0", 12, 9),
        (b"slice 0 0 3", 12, 11),
        (b"slice 00 0 0", 2, 7),
        (b"slice 0 ; 0", 1, 9),
        (b"slice 0 0 0 0", 1, 13),
        (b"slice 0 0", 1, 10),
        (b"# slice", 1, 1),
        (b"", 1, 1),
    ];
    for (text, number, place) in refused {
        let refusal = slice_refusal(rt.alloc(), text, Width::W8, Algorithm::Checkerboard)?;
        assert_eq!(rt; refusal, Some((number, place)));
    }
    Ok(())
}

#[test]
fn a_slice_is_not_located(rt: HostRuntime) -> Result<(), Fail> {
    let alloc = rt.alloc();
    let text = b"slice 0 0 0";
    let wide = slice_refusal(alloc, text, Width::W64, Algorithm::Checkerboard)?;
    assert_eq!(rt; wide, Some((13, 11)));
    let transparent = slice_refusal(alloc, text, Width::W8, Algorithm::TransparentGalpat)?;
    assert_eq!(rt; transparent, Some((14, 7)));
    Ok(())
}

// Why a line `miss` of checkerboard on two words is refused.
fn miss_refusal(text: &[u8], after: Option<u32>) -> Option<(u8, u32)>
    requires { length text.now ≤ 1024 }
{
    let refusal = read_miss(text, &checkerboard_on(2), after).err();
    refusal.map(|refusal| (refusal.kind.number(), refusal.place))
}

#[test]
fn misses_are_read(rt: HostRuntime) -> Result<(), Fail> {
    let probe = checkerboard_on(2);
    let miss = read_miss(b"miss 2 0fF", &probe, Some(1))
        .ok()
        .ok_or("the line is refused")?;
    assert_eq!(rt;
        miss,
        Miss {
            index: 2,
            word: 0xff
        }
    );
    assert_eq!(rt; miss_refusal(b"miss 2 00", None), Some((15, 8)));
    assert_eq!(rt; miss_refusal(b"miss 2 100", None), Some((4, 8)));
    assert_eq!(rt; miss_refusal(b"miss 2 g", None), Some((2, 8)));
    assert_eq!(rt; miss_refusal(b"miss 2", None), Some((1, 7)));
    // The access with index 1 is a write, and there are eight.
    assert_eq!(rt; miss_refusal(b"miss 1 01", None), Some((15, 6)));
    assert_eq!(rt; miss_refusal(b"miss 8 01", None), Some((15, 6)));
    assert_eq!(rt; miss_refusal(b"miss 2 01", Some(2)), Some((15, 6)));
    Ok(())
}
