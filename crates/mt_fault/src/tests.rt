// Each fault against words that were worked out by hand from its rule.

ghost use Rattle.std.specs.Prelude.{◌≡◌, length};

use crate::{Cells, Fault, FaultRefusal, Spot};
use mt_word::Width;
use std::process::Abort;
use std::test::Fail;

// One step of a table, with the answer that must come.
#[derive(Clone, Copy)]
enum Step {
    Write(u32, u64),
    Read(u32, u64),
    Inject(Fault),
    Refused(Fault, FaultRefusal),
    Heal,
}

use Step::{Heal, Inject, Read, Refused, Write};

const fn spot(word: u32, bit: u8) -> Spot {
    Spot { word, bit }
}

// Makes the steps on four words of eight bits.
fn play(rt: &impl Abort, cells: &mut Cells, steps: &[Step])
    requires width { cells.old.width ≡ Width.W8 }
    requires size { length cells.old.words ≡ 4 }
    ensures width { cells.new.width ≡ Width.W8 }
    ensures size { length cells.new.words ≡ 4 }
{
    for step in steps {
        match *step {
            Write(addr, word) => {
                assert!(rt; addr < 4 && word < 256);
                cells.write(addr, word);
            }
            Read(addr, word) => {
                assert!(rt; addr < 4);
                assert_eq!(rt; cells.read(addr), word, "at {addr}");
            }
            Inject(fault) => assert_eq!(rt; cells.inject(fault), Ok(())),
            Refused(fault, refusal) => assert_eq!(rt; cells.inject(fault), Err(refusal)),
            Heal => cells.heal(),
        }
    }
}

#[test]
fn faults_of_one_bit(rt: HostRuntime) -> Result<(), Fail> {
    let mut cells = Cells::new(rt.alloc(), Width::W8, 4, 0)?;
    let stuck = [
        Read(0, 0),
        Inject(Fault::StuckAt {
            vic: spot(1, 3),
            value: true,
        }),
        Read(1, 0x08),
        Write(1, 0xf7),
        Read(1, 0xff),
        Write(1, 0x00),
        Read(1, 0x08),
        Heal,
        Read(1, 0x08),
        Write(1, 0x00),
        Read(1, 0x00),
    ];
    play(&rt, &mut cells, &stuck);
    let cannot_rise = [
        Write(2, 0x01),
        Inject(Fault::CannotRise { vic: spot(2, 0) }),
        Read(2, 0x01),
        Write(2, 0x03),
        Read(2, 0x03),
        Write(2, 0x00),
        Write(2, 0xff),
        Read(2, 0xfe),
        Heal,
        Read(2, 0xfe),
        Write(2, 0x01),
        Read(2, 0x01),
    ];
    play(&rt, &mut cells, &cannot_rise);
    let cannot_fall = [
        Write(2, 0x00),
        Inject(Fault::CannotFall { vic: spot(2, 7) }),
        Write(2, 0x01),
        Read(2, 0x01),
        Write(2, 0x80),
        Write(2, 0x02),
        Read(2, 0x82),
        Heal,
        Write(2, 0x00),
        Read(2, 0x00),
    ];
    play(&rt, &mut cells, &cannot_fall);
    Ok(())
}

#[test]
fn coupling_faults(rt: HostRuntime) -> Result<(), Fail> {
    let mut cells = Cells::new(rt.alloc(), Width::W8, 4, 0)?;
    let invert = [
        Inject(Fault::Invert {
            agg: spot(0, 0),
            rise: true,
            vic: spot(1, 1),
        }),
        Write(0, 0x01),
        Read(1, 0x02),
        Write(0, 0x03),
        Read(1, 0x02),
        Write(0, 0x00),
        Read(1, 0x02),
        Write(0, 0xff),
        Read(1, 0x00),
        Write(1, 0xff),
        Write(0, 0x00),
        Write(0, 0x01),
        Read(1, 0xfd),
        Heal,
    ];
    play(&rt, &mut cells, &invert);
    let force = [
        Write(0, 0x00),
        Write(3, 0x80),
        Inject(Fault::Force {
            agg: spot(3, 7),
            rise: false,
            vic: spot(0, 2),
            value: true,
        }),
        Read(0, 0x00),
        Write(3, 0x00),
        Read(0, 0x04),
        Write(0, 0x00),
        Write(3, 0x01),
        Write(3, 0xff),
        Read(0, 0x00),
        Write(3, 0x7f),
        Read(0, 0x04),
        Heal,
    ];
    play(&rt, &mut cells, &force);
    let state = [
        Write(1, 0xff),
        Write(2, 0x01),
        Inject(Fault::State {
            agg: spot(2, 0),
            holds: true,
            vic: spot(1, 4),
            value: false,
        }),
        Read(1, 0xef),
        Write(1, 0xff),
        Read(1, 0xef),
        Write(2, 0x00),
        Read(1, 0xef),
        Write(1, 0xff),
        Read(1, 0xff),
        Write(2, 0x01),
        Heal,
        Read(1, 0xef),
        Write(1, 0xff),
        Read(1, 0xff),
    ];
    play(&rt, &mut cells, &state);
    Ok(())
}

#[test]
fn decoder_faults(rt: HostRuntime) -> Result<(), Fail> {
    let mut cells = Cells::new(rt.alloc(), Width::W8, 4, 0)?;
    let no_cell = [
        Write(3, 0x11),
        Inject(Fault::NoCell {
            addr: 3,
            seen: 0x5a,
        }),
        Write(3, 0x22),
        Read(3, 0x5a),
        Write(2, 0x07),
        Read(2, 0x07),
        Heal,
        Read(3, 0x11),
    ];
    play(&rt, &mut cells, &no_cell);
    let also = [
        Inject(Fault::Also {
            addr: 0,
            other: 1,
            wired_and: true,
        }),
        Write(0, 0x0f),
        Read(1, 0x0f),
        Write(1, 0x3c),
        Read(1, 0x3c),
        Read(0, 0x0c),
        Heal,
        Read(0, 0x0f),
        Inject(Fault::Also {
            addr: 0,
            other: 1,
            wired_and: false,
        }),
        Read(0, 0x3f),
        Heal,
    ];
    play(&rt, &mut cells, &also);
    let instead = [
        Write(2, 0x77),
        Inject(Fault::Instead { addr: 2, other: 0 }),
        Read(2, 0x0f),
        Write(2, 0x55),
        Read(0, 0x55),
        Write(0, 0x66),
        Read(2, 0x66),
        Heal,
        Read(2, 0x77),
        Read(0, 0x66),
    ];
    play(&rt, &mut cells, &instead);
    Ok(())
}

#[test]
fn refusals_in_order(rt: HostRuntime) -> Result<(), Fail> {
    let mut cells = Cells::new(rt.alloc(), Width::W8, 4, 0)?;
    let pair = |agg: Spot, vic: Spot| Fault::Invert {
        agg,
        rise: true,
        vic,
    };
    let stuck = |vic: Spot| Fault::StuckAt { vic, value: true };
    let wide = Fault::NoCell {
        addr: 0,
        seen: 0x100,
    };
    let itself = Fault::Instead { addr: 2, other: 2 };
    let steps = [
        Refused(stuck(spot(4, 0)), FaultRefusal::OutOfRange),
        Refused(stuck(spot(0, 8)), FaultRefusal::OutOfRange),
        Refused(wide, FaultRefusal::OutOfRange),
        Refused(pair(spot(4, 0), spot(4, 1)), FaultRefusal::OutOfRange),
        Refused(pair(spot(1, 0), spot(1, 1)), FaultRefusal::SameWord),
        Refused(itself, FaultRefusal::SameWord),
        Inject(stuck(spot(0, 0))),
        Refused(wide, FaultRefusal::OutOfRange),
        Refused(itself, FaultRefusal::SameWord),
        Refused(stuck(spot(1, 0)), FaultRefusal::Present),
        Read(1, 0x00),
        Heal,
        Inject(stuck(spot(1, 0))),
    ];
    play(&rt, &mut cells, &steps);
    Ok(())
}
