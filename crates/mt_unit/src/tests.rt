use super::*;
use mt_blocks::{Block, FlashBlock, FlsConfig, List, ParamSet, RamConfig, Span};
use mt_plan::{Algorithm, Policy};
use mt_port::Shape;
use mt_word::Width;

#[test]
fn the_check_value_of_crc_32(rt: HostRuntime) {
    let digits = [49u64, 50, 51, 52, 53, 54, 55, 56, 57];
    assert_eq!(rt; checksum(1, &digits), 0xcbf4_3926);
}

#[test]
fn checkerboard_on_two_cells(rt: HostRuntime) {
    let mut plan = Vec::new(rt.alloc());
    assert!(rt; push_plan(&Algorithm::Checkerboard, 2, &mut plan).is_ok());
    assert_eq!(rt; plan.as_slice(), [2u64, 7, 0, 5, 3, 6, 1, 4].as_slice());
}

#[test]
fn numbers_have_a_u(rt: HostRuntime) {
    let Ok(numbers) = numbers_in(
        rt.alloc(),
        b"a1u 23u, [4] 5u; 0x6u 18446744073709551615u 18446744073709551616u",
    ) else {
        panic!(rt; "no memory")
    };
    assert_eq!(rt; numbers.as_slice(), [23u64, 5, u64::MAX].as_slice());
}

#[test]
fn tables_are_written(rt: HostRuntime) {
    let alloc = rt.alloc();
    let shape = Shape {
        width: Width::W8,
        ram: 3,
        flash: 4,
    };
    let mut blocks = Vec::new(alloc);
    assert!(rt;
        blocks
            .push(Block {
                span: Span { first: 0, last: 2 },
                policy: Policy::Destructive,
                fill: 7
            })
            .is_ok()
    );
    let mut sets = Vec::new(alloc);
    assert!(rt;
        sets.push(ParamSet {
            alg: Algorithm::Checkerboard,
            background: 0,
            atomic: 2,
            cells: 2,
            blocks: List::new(blocks),
            retries: 2
        })
        .is_ok()
    );
    let config = RamConfig {
        sets: List::new(sets),
    };
    let Ok(text) = ram_source(alloc, shape, &config) else {
        panic!(rt; "no text")
    };
    let Ok(numbers) = numbers_in(alloc, text.as_slice()) else {
        panic!(rt; "no memory")
    };
    // The plans for one cell and for two, what is said of them but for the checksums, and the block.
    assert!(rt;
        numbers
            .as_slice()
            .starts_with(&[2u64, 0, 3, 1, 2, 7, 0, 5, 3, 6, 1, 4, 4, 1])
    );
    assert_eq!(rt; numbers.get(15).copied(), Some(8));
    assert_eq!(rt; numbers.get(16).copied(), Some(2));
    assert_eq!(rt; numbers.get(22).copied(), Some(7));
}

#[test]
fn flash_tables_are_written(rt: HostRuntime) {
    let alloc = rt.alloc();
    let shape = Shape {
        width: Width::W8,
        ram: 1,
        flash: 8,
    };
    let mut bgnd = Vec::new(alloc);
    assert!(rt;
        bgnd.push(FlashBlock {
            span: Span { first: 0, last: 2 },
            copy: 4
        })
        .is_ok()
    );
    let fls = FlsConfig {
        atomic: 2,
        cells: 2,
        interval_end: 9,
        bgnd: List::new(bgnd),
        fgnd: List::new(Vec::new(alloc)),
    };
    let Ok(text) = fls_source(alloc, shape, &fls) else {
        panic!(rt; "no text")
    };
    let Ok(numbers) = numbers_in(alloc, text.as_slice()) else {
        panic!(rt; "no memory")
    };
    assert!(rt; numbers.as_slice().starts_with(&[0u64, 4, 2, 1]));
}
