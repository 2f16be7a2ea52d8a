use mt_board::SimBoard;
use mt_fault::{Fault, Spot};
use mt_port::{Failed, MemSink, MemSource, NullSink, Source, Touch};
use mt_replay::{Status, replay};
use std::alloc::Global;
use std::test::Fail;

const JOB: &[u8] =
    b"version = 1\nwidth = 8\nram = 10\n[[set]]\nalgorithm = \"march\"\natomic = 4\ncells = 8\n[[set.block]]\nfirst = 0\nlast = 9\npolicy = \"non-destructive\"\n=====\nram Init\nram Allow\ntick ram @5[r 3]\nram GetTestResult\n";

const CUT: &[u8] =
    b"version = 1\nwidth = 8\nram = 10\n[[set]]\nalgorithm = \"march\"\natomic = 4\ncells = 8\n[[set.block]]\nfirst = 0\nlast = 9\npolicy = \"non-destructive\"\n=====\nram Init\nram Al";

// The source fails behind the bytes of a line that has no line feed yet.
#[test]
fn a_source_that_fails_in_a_line(rt: HostRuntime) -> Result<(), Fail> {
    let alloc = rt.alloc();
    let words = vec![in alloc; "run".to_string(alloc)?]?;
    let mut source = MemSource::new(CUT.to_vec(alloc)?, 3, vec![in alloc; CUT.len() as u64]?);
    let mut sink = MemSink::new(alloc, 100, Vec::new(alloc))
        .ok()
        .ok_or("memory")?;
    let status = replay(alloc, &words, &mut source, &mut sink, &mut SimBoard::new());
    assert_eq!(rt; status, Status::ReadFault);
    assert_eq!(rt; sink.bytes(), b"1 ok\nread fault\n".as_slice());
    Ok(())
}

// The sink fails at its fifth byte.
#[test]
fn a_sink_that_fails_in_a_trace(rt: HostRuntime) -> Result<(), Fail> {
    let alloc = rt.alloc();
    let words = vec![in alloc; "run".to_string(alloc)?]?;
    let mut source = MemSource::new(JOB.to_vec(alloc)?, 3, Vec::new(alloc));
    let mut sink = MemSink::new(alloc, 100, vec![in alloc; 4]?)
        .ok()
        .ok_or("memory")?;
    let status = replay(alloc, &words, &mut source, &mut sink, &mut SimBoard::new());
    assert_eq!(rt; status, Status::WriteFault);
    assert_eq!(rt; sink.bytes(), b"1 ok".as_slice());
    Ok(())
}

// A board whose RAM has a stuck bit from its power-up on.
#[test]
fn a_defect_is_found(rt: HostRuntime) -> Result<(), Fail> {
    let alloc = rt.alloc();
    let words = vec![in alloc; "run".to_string(alloc)?]?;
    let mut source = MemSource::new(JOB.to_vec(alloc)?, 64, Vec::new(alloc));
    let mut sink = MemSink::new(alloc, 100, Vec::new(alloc))
        .ok()
        .ok_or("memory")?;
    let stuck = Fault::StuckAt {
        vic: Spot { word: 3, bit: 0 },
        value: true,
    };
    let mut board = SimBoard::with_defect(stuck);
    let status = replay(alloc, &words, &mut source, &mut sink, &mut board);
    assert_eq!(rt; status, Status::Done);
    assert_eq!(rt;
        sink.bytes(),
        b"1 ok\n2 ok\n3 irq 1 at 48 wait 43\n3 - 01\n3 ran 96\n4 NOT_OK\nend ok 4\n".as_slice()
    );
    Ok(())
}

// A job of one word, of which the application uses another.
const WORD: &[u8] =
    b"version = 1\nwidth = 8\nram = 2\n[[set]]\nalgorithm = \"checkerboard\"\natomic = 1\ncells = 1\n[[set.block]]\nfirst = 1\nlast = 1\npolicy = \"non-destructive\"\n=====\nram Init\nram Allow\napp w 0 5a\ntick ram\n";

// The tape of a board tells the accesses of a replay's sequences, and none of the application's.
#[test]
fn a_tape_tells_the_sequences(rt: HostRuntime) -> Result<(), Fail> {
    let alloc = rt.alloc();
    let words = vec![in alloc; "run".to_string(alloc)?]?;
    let mut source = MemSource::new(WORD.to_vec(alloc)?, 64, Vec::new(alloc));
    let mut sink = MemSink::new(alloc, 100, Vec::new(alloc))
        .ok()
        .ok_or("memory")?;
    let mut board = SimBoard::new();
    let status = replay(alloc, &words, &mut source, &mut sink, &mut board);
    assert_eq!(rt; status, Status::Done);
    let told = [
        Touch::Read { addr: 1 },
        Touch::Write { addr: 1, word: 0 },
        Touch::Read { addr: 1 },
        Touch::Write {
            addr: 1,
            word: 0xff,
        },
        Touch::Read { addr: 1 },
        Touch::Write { addr: 1, word: 0 },
    ];
    assert_eq!(rt; board.tape().ok_or("told")?, told.as_slice());
    Ok(())
}

// The configuration of the jobs below, with its separator.
const CONFIGURATION: &str =
    "version = 1\nwidth = 8\nram = 10\n[[set]]\nalgorithm = \"march\"\natomic = 4\ncells = 8\n[[set.block]]\nfirst = 0\nlast = 9\npolicy = \"non-destructive\"\n=====\n";

// A tick with two requests, in a module that was not initialised.
const LINE: &str = "tick  ram @5 [ w 3 C4;r 3 ]@7[]";

const TRACE: &str = "1 irq 1 at 0 wait 0\n1 - ok\n1 - c4\n1 irq 2 at 0 wait 0\n1 refused 1\n";

// What the line cut behind so many of its bytes gives.
const CUTS: [(usize, &str); 28] = [
    (0, "end ok 0\n"),
    (1, "bad line 1 1 1\n"),
    (3, "bad line 1 1 1\n"),
    (4, "bad line 1 1 5\n"),
    (5, "bad line 1 1 6\n"),
    (6, "bad line 1 1 7\n"),
    (7, "bad line 1 1 7\n"),
    (9, "1 refused 1\nend ok 1\n"),
    (10, "1 refused 1\nend ok 1\n"),
    (11, "bad line 1 2 11\n"),
    (12, "1 irq 1 at 0 wait 0\n1 refused 1\nend ok 1\n"),
    (13, "1 irq 1 at 0 wait 0\n1 refused 1\nend ok 1\n"),
    (14, "bad line 1 1 15\n"),
    (15, "bad line 1 1 16\n"),
    (16, "bad line 1 1 17\n"),
    (17, "bad line 1 1 18\n"),
    (18, "bad line 1 1 19\n"),
    (20, "bad line 1 1 21\n"),
    (21, "bad line 1 1 22\n"),
    (22, "bad line 1 1 23\n"),
    (23, "bad line 1 1 24\n"),
    (25, "bad line 1 1 26\n"),
    (26, "bad line 1 1 27\n"),
    (
        27,
        "1 irq 1 at 0 wait 0\n1 - ok\n1 - c4\n1 refused 1\nend ok 1\n",
    ),
    (28, "bad line 1 2 28\n"),
    (
        29,
        "1 irq 1 at 0 wait 0\n1 - ok\n1 - c4\n1 irq 2 at 0 wait 0\n1 refused 1\nend ok 1\n",
    ),
    (30, "bad line 1 1 31\n"),
    (
        31,
        "1 irq 1 at 0 wait 0\n1 - ok\n1 - c4\n1 irq 2 at 0 wait 0\n1 refused 1\nend ok 1\n",
    ),
];

/// What a replay of some bytes came to, where source and sink fail at some places, and the sink has so much room.
fn replayed(
    alloc: Global,
    bytes: Vec<u8>,
    read_fails: Vec<u64>,
    write_fails: Vec<u64>,
    room: usize,
) -> Result<(Status, Vec<u8>), Fail> {
    let words = vec![in alloc; "run".to_string(alloc)?]?;
    let mut source = MemSource::new(bytes, 7, read_fails);
    let mut sink = MemSink::new(alloc, room, write_fails).ok().ok_or("memory")?;
    let status = replay(alloc, &words, &mut source, &mut sink, &mut SimBoard::new());
    Ok((status, sink.bytes().to_vec(alloc)?))
}

// Wherever the source fails, the text is that of the whole lines before.
#[test]
fn a_source_that_fails_anywhere(rt: HostRuntime) -> Result<(), Fail> {
    let alloc = rt.alloc();
    let whole = format!(in alloc; "{CONFIGURATION}{LINE}\n")?;
    let answered = format!(in alloc; "{TRACE}read fault\n")?;
    for place in 0..=whole.len() {
        let fails = vec![in alloc; place as u64]?;
        let (status, text) = replayed(
            alloc,
            whole.as_bytes().to_vec(alloc)?,
            fails,
            Vec::new(alloc),
            200,
        )?;
        assert_eq!(rt; status, Status::ReadFault);
        let want = if place == whole.len() {
            answered.as_str()
        } else {
            "read fault\n"
        };
        assert_eq!(rt; text.as_slice(), want.as_bytes());
    }
    Ok(())
}

// Wherever the sink fails, or has no more room, it holds the text up to there.
#[test]
fn a_sink_that_fails_anywhere(rt: HostRuntime) -> Result<(), Fail> {
    let alloc = rt.alloc();
    let whole = format!(in alloc; "{CONFIGURATION}{LINE}\n")?;
    let text = format!(in alloc; "{TRACE}end ok 1\n")?;
    for place in 0..text.len() {
        let fails = vec![in alloc; place as u64]?;
        let (status, held) = replayed(
            alloc,
            whole.as_bytes().to_vec(alloc)?,
            Vec::new(alloc),
            fails,
            200,
        )?;
        assert_eq!(rt; status, Status::WriteFault);
        assert_eq!(rt; held.as_slice(), &text.as_bytes()[..place]);
        let (status, held) = replayed(
            alloc,
            whole.as_bytes().to_vec(alloc)?,
            Vec::new(alloc),
            Vec::new(alloc),
            place,
        )?;
        assert_eq!(rt; status, Status::WriteFault);
        assert_eq!(rt; held.as_slice(), &text.as_bytes()[..place]);
    }
    Ok(())
}

// The source fails behind the first line, and the sink in the text that says so.
#[test]
fn both_streams_fail(rt: HostRuntime) -> Result<(), Fail> {
    let alloc = rt.alloc();
    let fails = vec![in alloc; CUT.len() as u64]?;
    let (status, held) = replayed(alloc, CUT.to_vec(alloc)?, fails, Vec::new(alloc), 5)?;
    assert_eq!(rt; status, Status::WriteFault);
    assert_eq!(rt; held.as_slice(), b"1 ok\n".as_slice());
    Ok(())
}

// A job may end behind any of its bytes.
#[test]
fn a_job_that_is_cut(rt: HostRuntime) -> Result<(), Fail> {
    let alloc = rt.alloc();
    for (len, want) in CUTS {
        let front = LINE.as_bytes().get(..len).ok_or("a long length")?;
        let mut bytes = CONFIGURATION.as_bytes().to_vec(alloc)?;
        bytes.extend_from_slice(front)?;
        let (_, text) = replayed(alloc, bytes, Vec::new(alloc), Vec::new(alloc), 200)?;
        assert_eq!(rt; text.as_slice(), want.as_bytes());
    }
    Ok(())
}

/// What `verify` answers to a job of one line and a trace, where the source fails behind so many bytes of them.
fn verified(alloc: Global, trace: &str, place: usize) -> Result<(Status, Vec<u8>), Fail> {
    let claim = format!(in alloc; "{CONFIGURATION}{LINE}\n=====\n{trace}")?;
    let words = vec![in alloc; "verify".to_string(alloc)?]?;
    let fails = vec![in alloc; place as u64]?;
    let mut source = MemSource::new(claim.as_bytes().to_vec(alloc)?, 7, fails);
    let mut sink = MemSink::new(alloc, 100, Vec::new(alloc))
        .ok()
        .ok_or("memory")?;
    let status = replay(alloc, &words, &mut source, &mut sink, &mut SimBoard::new());
    Ok((status, sink.bytes().to_vec(alloc)?))
}

// Wherever the source fails before the first byte that differs, nothing is known of the trace; behind it the trace differs.
#[test]
fn a_trace_that_breaks_off(rt: HostRuntime) -> Result<(), Fail> {
    let alloc = rt.alloc();
    let script = CONFIGURATION.len() + LINE.len() + 7;
    let same = format!(in alloc; "{TRACE}end ok 1\n")?;
    let other = format!(in alloc; "{}!{}", &same[..30], &same[31..])?;
    for place in 0..=script + same.len() {
        let (status, text) = verified(alloc, &same, place)?;
        assert_eq!(rt; status, Status::ReadFault);
        assert_eq!(rt; text.as_slice(), b"read fault\n".as_slice());
        let (status, text) = verified(alloc, &other, place)?;
        if place <= script + 30 {
            assert_eq!(rt; status, Status::ReadFault);
            assert_eq!(rt; text.as_slice(), b"read fault\n".as_slice());
        } else {
            assert_eq!(rt; status, Status::Differs { line: 3 });
            assert_eq!(rt; text.as_slice(), b"differs 3\n".as_slice());
        }
    }
    Ok(())
}

/// Streams that tell nothing and count how often they are called. The source gives its bytes at the first call.
#[derive(Drop)]
struct Counted {
    bytes: &'static [u8],
    calls: u32,
}

impl Source for Counted {
    ghost use Rattle.std.specs.Prelude.{None};
    ghost use Rattle.std.proofs.Common.{lit<};

    ghost left = { λ _. None };

    ghost faults = { λ _. 0 };

    ghost counted = { λ _. lit< tt };

    fn read(&mut self, buf: &mut [u8]) -> Result<usize, Failed> {
        self.calls = self.calls.saturating_add(1);
        let count = self.bytes.len().min(buf.len());
        let (front, rest) = self.bytes.split_at(count);
        buf[..count].copy_from_slice(front);
        self.bytes = rest;
        Ok(count)
    }
}

// The end of the input is asked for once.
#[test]
fn a_source_is_not_read_behind_its_end(rt: HostRuntime) -> Result<(), Fail> {
    let alloc = rt.alloc();
    let words = vec![in alloc; "run".to_string(alloc)?]?;
    for bytes in [
        JOB,
        CUT,
        CONFIGURATION.as_bytes(),
        &CONFIGURATION.as_bytes()[..CONFIGURATION.len() - 1],
        b"".as_slice(),
    ] {
        let mut source = Counted { bytes, calls: 0 };
        let mut sink = NullSink::new();
        let _ = replay(alloc, &words, &mut source, &mut sink, &mut SimBoard::new());
        assert_eq!(rt; source.calls, if bytes.is_empty() { 1 } else { 2 });
    }
    Ok(())
}
