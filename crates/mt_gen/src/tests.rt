use super::*;
use arrayvec::ArrayVec;
use mt_conf::write_config;
use mt_port::{MemSink, Source};
use mt_text::{Line, push_line};
use mt_window::{Entry, Refusal, Reply};
use mt_word::Width;
use std::test::Fail;

/// The first lines of the script with the number 0.
const FIRST: &[u8; 268] = b"ram Init
fls Init
ram Allow
app copy 183 87
tick ram @142[r 225; add 225 a08e]
tick ram @359[r 130; add 130 af67]
app r 174
tick fls @4[f 13]
app w 243 f947
tick ram @9[r 55; add 55 4409]
app copy 120 23
tick ram @389[r 188; add 188 b985]
app w 147 252e
app copy 41 2
";

// Whether the source gives these bytes first; it is asked for one at a time.
fn begins_with(source: &mut GenSource, bytes: &[u8]) -> Result<bool, Fail> {
    for byte in bytes {
        let mut next = [0];
        if source.read(&mut next)? != 1 || next[0] != *byte {
            return Ok(false);
        }
    }
    Ok(true)
}

#[test]
fn the_first_lines_of_script_0(rt: HostRuntime) -> Result<(), Fail> {
    assert!(rt; begins_with(&mut GenSource::new(0), FIRST)?);
    Ok(())
}

#[test]
fn line_4_of_script_1(rt: HostRuntime) -> Result<(), Fail> {
    let lines = b"ram Init\nfls Init\nram Allow\nram GetTestResult\n";
    assert!(rt; begins_with(&mut GenSource::new(1), lines)?);
    Ok(())
}

// The numbers of lines and bytes, and the FNV-1a hash, of the whole script.
#[test]
fn the_whole_script_0(rt: HostRuntime) -> Result<(), Fail> {
    let mut source = GenSource::new(0);
    let mut piece = [0; 4096];
    let mut lines = 0usize;
    let mut bytes = 0usize;
    let mut hash = 0xcbf2_9ce4_8422_2325u64;
    for _ in 0..30_000 {
        let count = source.read(&mut piece)?;
        bytes = bytes.saturating_add(count);
        for byte in &piece[..count] {
            hash = (hash ^ u64::from(*byte)).wrapping_mul(0x100_0000_01b3);
            lines = lines.saturating_add(usize::from(*byte == b'\n'));
        }
    }
    assert_eq!(rt; lines, 20_000);
    assert_eq!(rt; bytes, 444_018);
    assert_eq!(rt; hash, 0x8b9a_e545_6215_5982);
    Ok(())
}

#[test]
#[tactic(auto, unfolding(crate::specs::Summary::summary_of))]
fn entries_are_added_up(rt: HostRuntime) {
    let mut summary = Summary::new();
    summary.add_all(&[
        Entry::Served {
            number: 1,
            at: 192,
            wait: 92,
        },
        Entry::Inner(Reply::Refused(Refusal::Status)),
        Entry::Served {
            number: 2,
            at: 192,
            wait: 5,
        },
        Entry::Own(Reply::Ran(3072)),
        Entry::Own(Reply::Ran(24)),
    ]);
    assert_eq!(rt;
        (summary.ran, summary.served, summary.longest),
        (3096, 2, 92)
    );
}

const CONFIG: &str = r#"version = 1
width = 16
ram = 256
flash = 64
initial = "0000"

[[set]]
algorithm = "march"
march = "{*(w0); u(r0,w1); u(r1,w0); d(r0,w1); d(r1,w0); *(r0)}"
background = "0000"
atomic = 8
cells = 32

[[set.block]]
first = 0
last = 99
policy = "non-destructive"
fill = "0000"

[[set.block]]
first = 100
last = 199
policy = "destructive"
fill = "a5a5"

[fls]
atomic = 4
cells = 8
interval_end = 3

[[fls.bgnd]]
first = 0
last = 31
copy = 32
"#;

#[test]
fn the_configuration_has_this_text(rt: HostRuntime) -> Result<(), Fail> {
    let alloc = rt.alloc();
    let config = job_config(alloc)?;
    let mut sink = MemSink::new(alloc, 1024, Vec::new(alloc))?;
    write_config(&config, &mut sink)?;
    assert_eq!(rt; sink.bytes(), CONFIG.as_bytes());
    Ok(())
}

// The script is drawn line by line as its bytes are given.
#[test]
fn lines_are_those_of_the_source(rt: HostRuntime) -> Result<(), Fail> {
    let mut source = GenSource::new(7);
    let mut lines = ScriptLines::new(7);
    let mut line = Line::new();
    let mut text = ArrayVec::new();
    for _ in 0..100 {
        assert!(rt; lines.take(&mut line));
        text.clear();
        push_line(&mut text, &line, Width::W16);
        assert!(rt; begins_with(&mut source, &text)?);
    }
    Ok(())
}
