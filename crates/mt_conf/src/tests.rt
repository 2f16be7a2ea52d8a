ghost use Rattle.std.specs.Prelude.{IfOk};
ghost use Rattle.mt_conf.specs.Accepted.{IsAcceptedConfig};

use super::*;
use mt_march::MarchKind;
use mt_port::MemSink;
use std::alloc::{AllocError, Global};
use std::process::Abort;
use std::test::Fail;

const TOP: &str = "version = 1\nwidth = 8\nram = 10\n";

const SET: &str = "[[set]]\nalgorithm = \"march\"\natomic = 4\ncells = 8\n";

const GALPAT: &str = "[[set]]\nalgorithm = \"galpat\"\natomic = 4\ncells = 8\n";

const TRANSPARENT: &str = "[[set]]\nalgorithm = \"transparent-galpat\"\natomic = 4\ncells = 8\n";

const TIGHT: &str = "[[set]]\nalgorithm = \"march\"\natomic = 4\ncells = 3\n";

const SECOND: &str = "version = 2\nwidth = 8\nram = 10\n";

const BLOCK: &str = "[[set.block]]\nfirst = 0\nlast = 9\npolicy = \"non-destructive\"\n";

const LOW: &str = "[[set.block]]\nfirst = 0\nlast = 4\npolicy = \"non-destructive\"\n";

const HIGH: &str = "[[set.block]]\nfirst = 4\nlast = 9\npolicy = \"non-destructive\"\n";

const LONG: &str = "[[set.block]]\nfirst = 0\nlast = 10\npolicy = \"non-destructive\"\n";

const CLEARED: &str = "[[set.block]]\nfirst = 0\nlast = 9\npolicy = \"destructive\"\n";

const FLASH: &str = "version = 1\nwidth = 8\nram = 10\nflash = 4\n";

const FLS: &str = "[fls]\natomic = 1\ncells = 1\ninterval_end = 0\n";

const PLAIN_WRITTEN: &str = "version = 1
width = 8
ram = 10
flash = 0
initial = \"00\"

[[set]]
algorithm = \"march\"
march = \"{*(w0); u(r0,w1); u(r1,w0); d(r0,w1); d(r1,w0); *(r0)}\"
background = \"00\"
atomic = 4
cells = 8

[[set.block]]
first = 0
last = 9
policy = \"non-destructive\"
fill = \"00\"

[fls]
atomic = 1
cells = 1
interval_end = 0
";

const WIDE: &str = "version = 1\nwidth = 16\nram = 10\nflash = 4\ninitial = \"0AfF\"\n";

const FILLED: &str =
    "background = \"ABCD\"\n[[set.block]]\nlast = 4\nfirst = 2\npolicy = \"destructive\"\nfill = \"00E0\"\n";

const COPIES: &str =
    "[fls]\ncells = 3\natomic = 2\ninterval_end = 65535\n[[fls.fgnd]]\nfirst = 2\nlast = 3\ncopy = 0\n[[fls.bgnd]]\nfirst = 0\nlast = 0\ncopy = 3\n";

const WIDE_WRITTEN: &str = "version = 1
width = 16
ram = 10
flash = 4
initial = \"0aff\"

[[set]]
algorithm = \"galpat\"
background = \"abcd\"
atomic = 4
cells = 8

[[set.block]]
first = 2
last = 4
policy = \"destructive\"
fill = \"00e0\"

[fls]
atomic = 2
cells = 3
interval_end = 65535

[[fls.bgnd]]
first = 0
last = 0
copy = 3

[[fls.fgnd]]
first = 2
last = 3
copy = 0
";

const SECOND_WRITTEN: &str = "version = 2
width = 8
ram = 10
flash = 0
initial = \"00\"

[[set]]
algorithm = \"galpat\"
background = \"00\"
atomic = 4
cells = 8
retries = 2

[[set.block]]
first = 0
last = 9
policy = \"non-destructive\"
fill = \"00\"

[fls]
atomic = 1
cells = 1
interval_end = 0
";

/// Pieces of text, one after another.
fn joined(alloc: Global, pieces: &[&str]) -> Result<Vec<u8>, AllocError> {
    let mut text = Vec::new(alloc);
    for piece in pieces {
        text.extend_from_slice(piece.as_bytes())?;
    }
    Ok(text)
}

/// How a text of pieces is read; a text that is too long is told as no memory.
fn read(alloc: Global, pieces: &[&str]) -> Result<Config, ConfigRefusal>
    ensures { IfOk result IsAcceptedConfig }
{
    match joined(alloc, pieces) {
        Ok(text) if text.len() <= 65_536 => read_config(alloc, text.as_slice()),
        _ => Err(ConfigRefusal::NoMemory),
    }
}

/// The number of the refusal, and 0 where the text is accepted.
fn number(alloc: Global, pieces: &[&str]) -> u8 {
    match read(alloc, pieces) {
        Ok(_) => 0,
        Err(ConfigRefusal::NoMemory) => 100,
        Err(refusal) => refusal.number(),
    }
}

/// The number of a text's refusal, 0 where it is accepted; and the text in pieces.
type Case = (u8, [&'static str; 4]);

static KEYS_AND_TYPES: [Case; 22] = [
    (0, [TOP, SET, BLOCK, ""]),
    (1, ["version =", "", "", ""]),
    (1, [TOP, "version = 3\n", SET, BLOCK]),
    (2, [TOP, SET, BLOCK, "colour = 1\n"]),
    (2, ["version = 3\ncolour = 1\n", "", "", ""]),
    (
        2,
        [
            FLASH,
            SET,
            BLOCK,
            "[fls]\natomic = 1\ncells = 1\nretries = 2\n",
        ],
    ),
    (3, ["", "", "", ""]),
    (3, [TOP, SET, "[[set.block]]\nfirst = 0\nlast = 9\n", ""]),
    (3, ["version = 3\nwidth = \"8\"\n", SET, BLOCK, ""]),
    (3, [FLASH, SET, BLOCK, "[fls]\natomic = 1\ncells = 1\n"]),
    (
        4,
        ["version = 1\nwidth = \"8\"\nram = 10\n", SET, BLOCK, ""],
    ),
    (4, ["version = 3\nwidth = 8.0\nram = 10\n", SET, BLOCK, ""]),
    (4, [TOP, "set = [1]\n", "", ""]),
    (4, [TOP, "[set]\ncolour = 1\n", "", ""]),
    (4, [TOP, "fls = 1\n", SET, BLOCK]),
    (4, [TOP, SET, "retries = \"2\"\n", BLOCK]),
    (5, ["version = 3\nwidth = 8\nram = 10\n", SET, BLOCK, ""]),
    (5, ["version = 0\nwidth = 12\nram = 10\n", SET, BLOCK, ""]),
    (6, ["version = 1\nwidth = 12\nram = 10\n", SET, BLOCK, ""]),
    (6, ["version = 1\nwidth = 64\nram = 0\n", SET, BLOCK, ""]),
    (6, ["version = 2\nwidth = 12\nram = 10\n", SET, BLOCK, ""]),
    (7, ["version = 2\nwidth = 64\nram = 0\n", SET, BLOCK, ""]),
];

static SIZES_WORDS_AND_NAMES: [Case; 14] = [
    (7, ["version = 1\nwidth = 8\nram = 0\n", SET, BLOCK, ""]),
    (
        7,
        [
            "version = 1\nwidth = 8\nram = 65537\ninitial = \"0\"\n",
            SET,
            BLOCK,
            "",
        ],
    ),
    (
        7,
        [
            "version = 1\nwidth = 8\nram = 10\nflash = -1\n",
            SET,
            BLOCK,
            "",
        ],
    ),
    (
        0,
        [
            "version = 1\nwidth = 8\nram = 65536\nflash = 65536\n",
            SET,
            BLOCK,
            "",
        ],
    ),
    (8, [TOP, "initial = \"0\"\n", SET, BLOCK]),
    (8, [TOP, SET, BLOCK, "fill = \"0g\"\n"]),
    (8, [TOP, SET, "background = \"000\"\n", LONG]),
    (
        8,
        [
            "version = 1\nwidth = 16\nram = 10\ninitial = \"00\"\nset = []\n",
            "",
            "",
            "",
        ],
    ),
    (
        0,
        [
            "version = 1\nwidth = 16\nram = 10\ninitial = \"0aFf\"\n",
            SET,
            BLOCK,
            "",
        ],
    ),
    (9, [TOP, "set = []\n", "", ""]),
    (
        9,
        [
            TOP,
            "[[set]]\nalgorithm = \"abraham\"\natomic = 4\ncells = 8\nblock = []\n",
            "",
            "",
        ],
    ),
    (
        10,
        [
            TOP,
            "[[set]]\nalgorithm = \"abraham\"\natomic = 4\ncells = 8\n",
            BLOCK,
            "",
        ],
    ),
    (
        10,
        [
            TOP,
            SET,
            "[[set.block]]\nfirst = 0\nlast = 10\npolicy = \"careful\"\n",
            "",
        ],
    ),
    (10, [TOP, GALPAT, "march = \"{*(w0);u(r0)}\"\n", BLOCK]),
];

static BLOCKS_AND_CELLS: [Case; 21] = [
    (11, [TOP, SET, "march = \"{*(w0);u(r0)}\"\n", BLOCK]),
    (
        11,
        [
            TOP,
            TRANSPARENT,
            CLEARED,
            "[[set]]\nalgorithm = \"march\"\natomic = 4\ncells = 8\nmarch = \"\"\n[[set.block]]\nfirst = 0\nlast = 9\npolicy = \"destructive\"\n",
        ],
    ),
    (12, [TOP, TRANSPARENT, CLEARED, ""]),
    (12, [TOP, TRANSPARENT, LONG, CLEARED]),
    (0, [TOP, TRANSPARENT, BLOCK, ""]),
    (0, [TOP, GALPAT, CLEARED, ""]),
    (13, [TOP, SET, LONG, ""]),
    (13, [TOP, TIGHT, BLOCK, LONG]),
    (
        13,
        [
            TOP,
            SET,
            "[[set.block]]\nfirst = 5\nlast = 4\npolicy = \"destructive\"\n",
            "",
        ],
    ),
    (
        13,
        [
            TOP,
            SET,
            "[[set.block]]\nfirst = -1\nlast = 4\npolicy = \"destructive\"\n",
            "",
        ],
    ),
    (14, [TOP, SET, LOW, HIGH]),
    (
        14,
        [
            TOP,
            TIGHT,
            LOW,
            "[[set.block]]\nfirst = 8\nlast = 9\npolicy = \"destructive\"\n[[set.block]]\nfirst = 1\nlast = 2\npolicy = \"destructive\"\n",
        ],
    ),
    (
        0,
        [
            TOP,
            "[[set]]\nalgorithm = \"walk-path\"\natomic = 4\ncells = 8\n[[set.block]]\nfirst = 0\nlast = 4\npolicy = \"destructive\"\n",
            SET,
            HIGH,
        ],
    ),
    (15, [TOP, TIGHT, BLOCK, ""]),
    (15, [TOP, SET, "retries = 2\n", BLOCK]),
    (15, [SECOND, SET, "retries = 17\n", BLOCK]),
    (15, [SECOND, SET, "retries = -1\n", BLOCK]),
    (0, [SECOND, SET, "retries = 16\n", BLOCK]),
    (
        14,
        [
            TOP,
            SET,
            "retries = 2\n",
            "[[set.block]]\nfirst = 0\nlast = 0\npolicy = \"destructive\"\n[[set.block]]\nfirst = 0\nlast = 0\npolicy = \"destructive\"\n",
        ],
    ),
    (
        15,
        [
            TOP,
            "[[set]]\nalgorithm = \"checkerboard\"\natomic = 65\ncells = 65\n",
            BLOCK,
            "[fls]\natomic = 0\ncells = 1\ninterval_end = 0\n",
        ],
    ),
    (
        0,
        [
            TOP,
            "[[set]]\nalgorithm = \"checkerboard\"\natomic = 64\ncells = 65536\n",
            BLOCK,
            "",
        ],
    ),
];

/// Each text is refused by its number, or accepted.
fn are_told(rt: &impl Abort, alloc: Global, cases: &[Case]) {
    for (i, (expected, pieces)) in cases.iter().enumerate() {
        assert_eq!(rt; number(alloc, pieces), *expected, "{i}");
    }
}

#[test]
fn keys_and_types(rt: HostRuntime) {
    are_told(&rt, rt.alloc(), &KEYS_AND_TYPES);
    let bytes = read_config(rt.alloc(), b"version = \xff").err();
    assert_eq!(rt; bytes, Some(ConfigRefusal::NotToml));
}

#[test]
fn sizes_words_and_names(rt: HostRuntime) {
    are_told(&rt, rt.alloc(), &SIZES_WORDS_AND_NAMES);
}

#[test]
fn blocks_and_cells(rt: HostRuntime) {
    are_told(&rt, rt.alloc(), &BLOCKS_AND_CELLS);
}

static FLASH_BLOCKS: [(u8, &str); 7] = [
    (16, "[[fls.bgnd]]\nfirst = 0\nlast = 3\ncopy = 1\n"),
    (16, "[[fls.fgnd]]\nfirst = 0\nlast = 1\ncopy = 3\n"),
    (16, "[[fls.bgnd]]\nfirst = 3\nlast = 4\ncopy = 0\n"),
    (16, "[[fls.bgnd]]\nfirst = 0\nlast = 0\ncopy = -1\n"),
    (17, "[[fls.bgnd]]\nfirst = 0\nlast = 3\ncopy = 0\n"),
    (
        17,
        "[[fls.bgnd]]\nfirst = 0\nlast = 1\ncopy = 2\n[[fls.fgnd]]\nfirst = 2\nlast = 3\ncopy = 1\n",
    ),
    (
        0,
        "[[fls.bgnd]]\nfirst = 0\nlast = 1\ncopy = 2\n[[fls.fgnd]]\nfirst = 0\nlast = 1\ncopy = 2\n",
    ),
];

#[test]
fn flash_blocks(rt: HostRuntime) {
    for (i, (expected, blocks)) in FLASH_BLOCKS.iter().enumerate() {
        let pieces = [FLASH, SET, BLOCK, FLS, blocks];
        assert_eq!(rt; number(rt.alloc(), &pieces), *expected, "{i}");
    }
    let late = "[fls]\natomic = 1\ncells = 1\ninterval_end = 65536\n";
    assert_eq!(rt; number(rt.alloc(), &[FLASH, SET, BLOCK, late]), 16);
}

const BAD_MARCH: &str =
    "[[set]]\nalgorithm = \"march\"\natomic = 4\ncells = 8\nmarch = \"{*(w0);u(r0)}\"\n";

#[test]
fn refused_march_tells_its_set_and_place(rt: HostRuntime) {
    let refusal = read(rt.alloc(), &[TOP, GALPAT, BLOCK, BAD_MARCH, BLOCK]).err();
    let expected = ConfigRefusal::March {
        set: 1,
        kind: MarchKind::OneValueOnly,
        place: 13,
    };
    assert_eq!(rt; refusal, Some(expected));
}

static CANONICAL: [(&str, [&str; 4]); 5] = [
    (PLAIN_WRITTEN, [TOP, SET, BLOCK, ""]),
    (PLAIN_WRITTEN, [PLAIN_WRITTEN, "", "", ""]),
    (WIDE_WRITTEN, [WIDE, GALPAT, FILLED, COPIES]),
    (WIDE_WRITTEN, [WIDE_WRITTEN, "", "", ""]),
    (SECOND_WRITTEN, [SECOND, GALPAT, BLOCK, ""]),
];

/// Whether the sink holds the text or, where it is too small, a front of it after a failure.
fn holds(alloc: Global, config: &Config, text: &[u8], room: usize) -> bool
    requires { IsAcceptedConfig config.now }
{
    let Ok(mut sink) = MemSink::new(alloc, room, Vec::new(alloc)) else {
        return false;
    };
    let written = write_config(config, &mut sink);
    written.is_ok() == (text.len() <= room)
        && sink.bytes().len() == text.len().min(room)
        && text.starts_with(sink.bytes())
}

// What is written is read again, and written as it stands. A sink that is too small holds a front of it.
#[test]
fn canonical_text(rt: HostRuntime) -> Result<(), Fail> {
    for (text, pieces) in &CANONICAL {
        let Ok(config) = read(rt.alloc(), pieces) else {
            return Err(Fail::new("refused"));
        };
        for room in [1000, 100] {
            assert!(rt; holds(rt.alloc(), &config, text.as_bytes(), room), "{text}");
        }
    }
    Ok(())
}
