// What no clause says: failures of a reader and of a writer, and values that were worked out by hand.
#![tactic(auto, unfolding(crate::specs::Board::powered_up))]

use crate::{
    Failed, Gathered, MemSink, MemSource, NullSink, PlainBoard, PlainSource, Port, Shape, Sink,
    Source, StdIn, StdOut, Touch, put,
};
use mt_word::Width;
use std::io;
use std::test::Fail;

// A reader and a writer that fails at one of its calls, counted from 1. Another read gives `x`, twice in all, and then
// ends; another write takes two bytes at most.
#[derive(Drop)]
struct FailsAt {
    call: u32,
    calls: u32,
    left: u32,
}

impl FailsAt {
    fn new(call: u32) -> FailsAt {
        FailsAt {
            call,
            calls: 0,
            left: 2,
        }
    }

    fn turn(&mut self) -> io::Result<()> {
        self.calls = self.calls.saturating_add(1);
        if self.calls == self.call {
            return Err(io::Error::from(io::ErrorKind::Other));
        }
        Ok(())
    }
}

impl io::Read for FailsAt {
    fn read(&mut self, buf: &mut [u8]) -> io::Result<usize> {
        self.turn()?;
        if buf.is_empty() || self.left == 0 {
            return Ok(0);
        }
        self.left -= 1;
        buf[0] = b'x';
        Ok(1)
    }
}

impl io::Write for FailsAt {
    fn write(&mut self, buf: &[u8]) -> io::Result<usize> {
        self.turn()?;
        Ok(buf.len().min(2))
    }

    fn flush(&mut self) -> io::Result<()> {
        Ok(())
    }
}

// A writer that takes nothing.
#[derive(Drop)]
struct Closed;

impl io::Write for Closed {
    fn write(&mut self, _: &[u8]) -> io::Result<usize> {
        Ok(0)
    }

    fn flush(&mut self) -> io::Result<()> {
        Ok(())
    }
}

#[test]
fn each_failure_of_a_reader_is_told_once(rt: HostRuntime) {
    for call in 1..4 {
        let mut source = StdIn::new(FailsAt::new(call));
        let mut given = 0;
        for turn in 1..6 {
            let mut buf = [b'-'; 2];
            if turn == call {
                assert_eq!(rt; source.read(&mut buf), Err(Failed));
                assert_eq!(rt; buf, *b"--");
            } else if given < 2 {
                assert_eq!(rt; source.read(&mut buf), Ok(1));
                assert_eq!(rt; buf, *b"x-");
                given += 1;
            } else {
                assert_eq!(rt; source.read(&mut buf), Ok(0));
            }
        }
    }
}

#[test]
fn a_read_into_no_room_gives_nothing(rt: HostRuntime) {
    let mut source = StdIn::new(FailsAt::new(0));
    assert_eq!(rt; source.read(&mut []), Ok(0));
    let mut buf = [b'-'; 1];
    assert_eq!(rt; source.read(&mut buf), Ok(1));
}

#[test]
fn a_reader_gives_its_bytes(rt: HostRuntime) {
    let mut source = StdIn::new(b"abcd".as_slice());
    let mut buf = [b'-'; 3];
    assert_eq!(rt; source.read(&mut buf), Ok(3));
    assert_eq!(rt; buf, *b"abc");
    assert_eq!(rt; source.read(&mut buf), Ok(1));
    assert_eq!(rt; buf, *b"dbc");
    assert_eq!(rt; source.read(&mut buf), Ok(0));
}

#[test]
fn each_failure_of_a_writer_is_told_once(rt: HostRuntime) {
    for call in 1..4 {
        let mut sink = StdOut::new(FailsAt::new(call));
        for turn in 1..6 {
            let want = if turn == call { Err(Failed) } else { Ok(2) };
            assert_eq!(rt; sink.write(b"abc"), want);
        }
        assert_eq!(rt; sink.write(b""), Ok(0));
    }
}

#[test]
fn the_first_failure_of_a_writer_ends_a_piece(rt: HostRuntime) {
    for call in 1..4 {
        let mut sink = StdOut::new(FailsAt::new(call));
        assert_eq!(rt; put(&mut sink, b"abcdef"), Err(Failed));
        assert_eq!(rt; put(&mut sink, b"abcdef"), Ok(()));
        assert_eq!(rt; put(&mut sink, b""), Ok(()));
    }
}

#[test]
fn a_writer_that_takes_nothing_fails(rt: HostRuntime) {
    let mut sink = StdOut::new(Closed);
    assert_eq!(rt; sink.write(b"a"), Err(Failed));
    assert_eq!(rt; sink.write(b""), Ok(0));
    assert_eq!(rt; put(&mut sink, b"a"), Err(Failed));
}

// A writer that takes at most so many bytes a call, and never fails.
#[derive(Drop)]
struct TakesUpTo(usize);

impl io::Write for TakesUpTo {
    fn write(&mut self, buf: &[u8]) -> io::Result<usize> {
        Ok(buf.len().min(self.0))
    }

    fn flush(&mut self) -> io::Result<()> {
        Ok(())
    }
}

#[test]
fn a_piece_of_any_size_goes_to_a_writer_that_takes_some(rt: HostRuntime) -> Result<(), Fail> {
    for size in [1, 4095, 4096, 4097, 16_448, 65_536] {
        let piece = vec![in rt.alloc(); b'x'; size]?;
        assert_eq!(rt;
            put(&mut StdOut::new(TakesUpTo(usize::MAX)), &piece),
            Ok(())
        );
        assert_eq!(rt; put(&mut StdOut::new(TakesUpTo(1)), &piece), Ok(()));
    }
    Ok(())
}

#[test]
fn a_source_fails_once_at_a_place(rt: HostRuntime) -> Result<(), Fail> {
    let alloc = rt.alloc();
    let mut source = MemSource::new(b"abcdef".to_vec(alloc)?, 3, vec![in alloc; 2, 2]?);
    let mut buf = [b'-'; 8];
    assert_eq!(rt; source.read(&mut buf), Ok(2));
    assert_eq!(rt; source.read(&mut buf), Err(Failed));
    assert_eq!(rt; buf, *b"ab------");
    assert_eq!(rt; source.read(&mut buf), Ok(3));
    assert_eq!(rt; buf, *b"cde-----");
    assert_eq!(rt; source.read(&mut buf), Ok(1));
    assert_eq!(rt; source.read(&mut buf), Ok(0));
    Ok(())
}

#[test]
fn a_plain_source_fills_the_room(rt: HostRuntime) -> Result<(), Fail> {
    let mut source = PlainSource::new(b"abc".to_vec(rt.alloc())?);
    let mut buf = [b'-'; 2];
    assert_eq!(rt; source.read(&mut buf), Ok(2));
    assert_eq!(rt; buf, *b"ab");
    assert_eq!(rt; source.read(&mut buf), Ok(1));
    assert_eq!(rt; buf, *b"cb");
    assert_eq!(rt; source.read(&mut buf), Ok(0));
    Ok(())
}

#[test]
fn a_sink_holds_what_it_has_room_for(rt: HostRuntime) -> Result<(), Fail> {
    let alloc = rt.alloc();
    let mut sink = MemSink::new(alloc, 3, Vec::new(alloc))
        .ok()
        .ok_or("memory")?;
    assert_eq!(rt; put(&mut sink, b"abcd"), Err(Failed));
    assert_eq!(rt; sink.bytes(), b"abc".as_slice());
    assert_eq!(rt; put(&mut sink, b""), Ok(()));
    Ok(())
}

#[test]
fn a_sink_fails_once_at_a_place(rt: HostRuntime) -> Result<(), Fail> {
    let alloc = rt.alloc();
    let mut sink = MemSink::new(alloc, 9, vec![in alloc; 2]?)
        .ok()
        .ok_or("memory")?;
    assert_eq!(rt; sink.write(b"abcd"), Ok(2));
    assert_eq!(rt; sink.write(b"cd"), Err(Failed));
    assert_eq!(rt; sink.write(b"cd"), Ok(2));
    assert_eq!(rt; sink.bytes(), b"abcd".as_slice());
    Ok(())
}

#[test]
fn gathered_pieces_wait_until_there_is_no_room(rt: HostRuntime) -> Result<(), Fail> {
    let alloc = rt.alloc();
    let mut sink = MemSink::new(alloc, 5000, Vec::new(alloc))
        .ok()
        .ok_or("memory")?;
    let mut gathered = Gathered::new();
    assert_eq!(rt; gathered.put(&mut sink, b"ab"), Ok(()));
    assert_eq!(rt; gathered.put(&mut sink, &[b'x'; 4094]), Ok(()));
    assert_eq!(rt; sink.bytes(), b"".as_slice());
    assert_eq!(rt; gathered.put(&mut sink, b"yz"), Ok(()));
    assert_eq!(rt; sink.bytes().len(), 4096);
    assert_eq!(rt; gathered.flush(&mut sink), Ok(()));
    assert_eq!(rt; sink.bytes().len(), 4098);
    assert_eq!(rt; gathered.put(&mut sink, &[b'x'; 4096]), Ok(()));
    assert_eq!(rt; gathered.flush(&mut sink), Err(Failed));
    assert_eq!(rt; sink.bytes().len(), 5000);
    assert_eq!(rt; gathered.flush(&mut sink), Ok(()));
    Ok(())
}

#[test]
fn a_piece_longer_than_all_room_is_not_gathered(rt: HostRuntime) -> Result<(), Fail> {
    let alloc = rt.alloc();
    let mut sink = MemSink::new(alloc, 5000, Vec::new(alloc))
        .ok()
        .ok_or("memory")?;
    let mut gathered = Gathered::new();
    assert_eq!(rt; gathered.put(&mut sink, b"ab"), Ok(()));
    assert_eq!(rt; gathered.put(&mut sink, &[b'x'; 4097]), Ok(()));
    assert_eq!(rt; sink.bytes().len(), 4099);
    Ok(())
}

#[test]
fn a_null_sink_takes_all(rt: HostRuntime) {
    let mut sink = NullSink::new();
    assert_eq!(rt; sink.write(b"abc"), Ok(3));
    assert_eq!(rt; sink.write(b""), Ok(0));
}

#[test]
fn a_plain_board_counts_and_tapes_its_accesses(rt: HostRuntime) -> Result<(), Fail> {
    let shape = Shape {
        width: Width::W8,
        ram: 10,
        flash: 2,
    };
    let mut board = PlainBoard::new(rt.alloc(), shape, 0)?;
    board.hold();
    assert_eq!(rt; board.read(9), 0);
    assert_eq!(rt; board.made(), 1);
    board.write(9, 0x5a);
    assert_eq!(rt; board.read(9), 0x5a);
    assert_eq!(rt; board.flash_read(1), 0xff);
    let touches = [
        Touch::Read { addr: 9 },
        Touch::Write {
            addr: 9,
            word: 0x5a,
        },
        Touch::Read { addr: 9 },
        Touch::Flash { addr: 1 },
    ];
    assert_eq!(rt; board.tape(), Some(touches.as_slice()));
    Ok(())
}
