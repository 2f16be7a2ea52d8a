// What the board does over several calls, with values that were worked out by hand.
#![tactic(auto, unfolding(mt_port::specs::Board::powered_up))]

ghost use Rattle.std.specs.Prelude.{◌≡◌, ◌<◌, ◌+◌, ◌-◌, ◌^◌, [], false};
ghost use Rattle.mt_port.specs.Board.{AreSoundRequests};
ghost use Rattle.mt_port.specs.declared.board.Shape.{Shape};
ghost use Rattle.mt_board.specs.Board.{sim_state};

use crate::{Deed, Deeds, SimBoard, Watched};
use arrayvec::ArrayVec;
use mt_fault::{Fault, FaultRefusal, Spot};
use mt_port::{Answer, AppOp, Bench, Port, Request, Shape, Touch};
use mt_word::Width;
use std::process::Abort;
use std::test::Fail;

const SMALL: Shape = Shape {
    width: Width::W8,
    ram: 10,
    flash: 0,
};

fn stuck(word: u32) -> Fault {
    Fault::StuckAt {
        vic: Spot { word, bit: 0 },
        value: true,
    }
}

#[test]
fn a_defect_comes_again_with_each_power_up(rt: HostRuntime) -> Result<(), Fail> {
    let mut board = SimBoard::with_defect(stuck(0));
    let read = AppOp::Read { addr: 0 };
    board.power_up(rt.alloc(), SMALL, 0)?;
    assert_eq!(rt; board.app(&read), Answer::Word(1));
    assert_eq!(rt; board.inject(stuck(1)), Err(FaultRefusal::Present));
    board.heal();
    assert_eq!(rt; board.app(&AppOp::Write { addr: 0, word: 0 }), Answer::Done);
    assert_eq!(rt; board.app(&read), Answer::Word(0));
    board.power_up(rt.alloc(), SMALL, 0)?;
    assert_eq!(rt; board.app(&read), Answer::Word(1));
    Ok(())
}

#[test]
fn a_defect_that_does_not_fit_is_none(rt: HostRuntime) -> Result<(), Fail> {
    let mut board = SimBoard::with_defect(stuck(10));
    assert_eq!(rt; board.inject(stuck(0)), Err(FaultRefusal::OutOfRange));
    board.power_up(rt.alloc(), SMALL, 0)?;
    assert_eq!(rt; board.inject(stuck(9)), Ok(()));
    let large = Shape {
        width: Width::W16,
        ram: 11,
        flash: 2,
    };
    board.power_up(rt.alloc(), large, 0xabcd)?;
    assert_eq!(rt; board.inject(stuck(9)), Err(FaultRefusal::Present));
    assert_eq!(rt; board.app(&AppOp::Read { addr: 9 }), Answer::Word(0xabcd));
    assert_eq!(rt; board.app(&AppOp::Flash { addr: 1 }), Answer::Word(0xffff));
    board.burn(1, 0x00f0);
    board.flip(Spot { word: 1, bit: 15 });
    board.flip(Spot { word: 1, bit: 4 });
    assert_eq!(rt; board.app(&AppOp::Flash { addr: 1 }), Answer::Word(0x80e0));
    assert_eq!(rt; board.app(&AppOp::Flash { addr: 0 }), Answer::Word(0xffff));
    Ok(())
}

#[test]
fn a_tape_tells_256_accesses(rt: HostRuntime) -> Result<(), Fail> {
    let mut board = SimBoard::new();
    board.power_up(rt.alloc(), SMALL, 0)?;
    board.hold();
    for _ in 0..256u32 {
        board.read(3);
    }
    assert_eq!(rt; board.tape().map(|touches| touches.len()), Some(256));
    board.write(4, 0x55);
    assert!(rt; board.tape().is_none());
    board.release();
    board.power_up(rt.alloc(), SMALL, 0)?;
    board.hold();
    board.write(4, 0x55);
    assert_eq!(rt;
        board.tape(),
        Some([Touch::Write {
            addr: 4,
            word: 0x55
        }]
        .as_slice())
    );
    Ok(())
}

#[test]
fn a_watched_board_lists_the_first_deeds(rt: HostRuntime) -> Result<(), Fail> {
    let deeds = Deeds::new(rt.alloc(), 4)?;
    let mut board = Watched::new(SimBoard::with_defect(stuck(3)), deeds);
    board.power_up(rt.alloc(), SMALL, 0x40)?;
    board.hold();
    assert_eq!(rt; board.read(3), 0x41);
    board.write(4, 0x55);
    assert_eq!(rt; board.left_out(), 0);
    board.release();
    board.heal();
    assert_eq!(rt;
        board.deeds(),
        [
            Deed::PowerUp {
                shape: SMALL,
                initial: 0x40
            },
            Deed::Hold,
            Deed::Read {
                addr: 3,
                word: 0x41
            },
            Deed::Write {
                addr: 4,
                word: 0x55
            },
        ]
        .as_slice()
    );
    assert_eq!(rt; board.left_out(), 2);
    Ok(())
}

// How many test accesses come first, which call is made then, and the request that it hands out: its number, its offset
// and the count.
type Row = (u8, Take, Option<(u8, u32, u32)>);

#[derive(Clone, Copy)]
enum Take {
    Due,
    Left,
}

// The requests are at the offsets 0, 5, 5 and 9.
const IN_TIME: [Row; 10] = [
    (0, Take::Due, Some((1, 0, 0))),
    (0, Take::Due, None),
    (4, Take::Due, None),
    (1, Take::Due, Some((2, 5, 5))),
    (0, Take::Due, Some((3, 5, 5))),
    (0, Take::Due, None),
    (3, Take::Due, None),
    (1, Take::Due, Some((4, 9, 9))),
    (0, Take::Due, None),
    (0, Take::Left, None),
];

const LATE: [Row; 6] = [
    (7, Take::Due, Some((1, 0, 7))),
    (0, Take::Left, Some((2, 5, 7))),
    (1, Take::Due, Some((3, 5, 8))),
    (0, Take::Due, None),
    (0, Take::Left, Some((4, 9, 8))),
    (0, Take::Left, None),
];

fn request(offset: u32) -> Request
    ensures offset { result.offset ≡ offset }
    ensures ops { result.ops.items ≡ [] }
{
    Request {
        offset,
        urgent: offset == 5,
        ops: ArrayVec::new(),
    }
}

fn requests() -> ArrayVec<Request, 16>
    ensures { (shape : Shape) → AreSoundRequests shape result.items }
{
    let mut requests = ArrayVec::new();
    requests.push(request(0));
    requests.push(request(5));
    requests.push(request(5));
    requests.push(request(9));
    requests
}

fn read_times(board: &mut SimBoard, times: u8)
    requires free { (sim_state board.old).held ≡ false }
    requires inside { 0 < (sim_state board.old).shape.ram }
    requires room { (sim_state board.old).count + times < 2 ^ 32 - 1 }
    ensures free { (sim_state board.new).held ≡ false }
    ensures shape { (sim_state board.new).shape ≡ (sim_state board.old).shape }
{
    board.hold();
    for _ in 0..times {
        board.read(0);
    }
    board.release();
}

fn taken(board: &mut SimBoard, take: Take) -> Option<(u8, u32, u32)>
    requires { (sim_state board.old).held ≡ false }
    ensures free { (sim_state board.new).held ≡ false }
    ensures shape { (sim_state board.new).shape ≡ (sim_state board.old).shape }
{
    let due = match take {
        Take::Due => board.take_due(),
        Take::Left => board.take_left(),
    };
    due.map(|due| (due.number, due.request.offset, due.at))
}

// Begins an event with the requests, and makes the calls of a table.
fn hands_out(rt: &impl Abort, board: &mut SimBoard, rows: &[Row])
    requires free { (sim_state board.old).held ≡ false }
    requires none { (sim_state board.old).left ≡ [] }
    requires inside { 0 < (sim_state board.old).shape.ram }
{
    let mut asked = requests();
    board.begin_event(&mut asked);
    for (reads, take, expected) in rows {
        assert!(rt; board.made() < 100);
        read_times(board, *reads);
        assert_eq!(rt; taken(board, *take), *expected);
    }
}

// Begins an event with the requests, of which the two with offset 5 are urgent, and asks whether one is due.
fn sees_urgent(rt: &impl Abort, board: &mut SimBoard)
    requires free { (sim_state board.old).held ≡ false }
    requires none { (sim_state board.old).left ≡ [] }
    requires inside { 0 < (sim_state board.old).shape.ram }
{
    let mut asked = requests();
    board.begin_event(&mut asked);
    assert!(rt; !board.urgent_due());
    read_times(board, 5);
    assert!(rt; board.urgent_due());
    assert!(rt; board.take_left().is_some());
    assert!(rt; board.urgent_due());
    assert!(rt; board.take_left().is_some());
    assert!(rt; board.urgent_due());
    assert!(rt; board.take_left().is_some());
    assert!(rt; !board.urgent_due());
}

#[test]
fn an_urgent_request_is_seen_behind_others(rt: HostRuntime) -> Result<(), Fail> {
    let mut board = SimBoard::new();
    board.power_up(rt.alloc(), SMALL, 0)?;
    sees_urgent(&rt, &mut board);
    Ok(())
}

#[test]
fn requests_come_in_time(rt: HostRuntime) -> Result<(), Fail> {
    let mut board = SimBoard::new();
    board.power_up(rt.alloc(), SMALL, 0)?;
    hands_out(&rt, &mut board, &IN_TIME);
    Ok(())
}

#[test]
fn late_requests_come_in_their_order(rt: HostRuntime) -> Result<(), Fail> {
    let mut board = SimBoard::new();
    board.power_up(rt.alloc(), SMALL, 0)?;
    hands_out(&rt, &mut board, &LATE);
    Ok(())
}
