//! A job to begin with.

use anyhow::{Context, Result};
use std::fs::OpenOptions;
use std::io::Write;
use std::process::ExitCode;
use std::rt::Files;

/// The job, with a comment on each key of its configuration.
const JOB: &str =
    r#"# A job: a configuration, a line of five equals signs, and a script. docs/GUIDE.md leads through one.

# The version of the format, 1 or 2. Version 2 has words of 64 bits and the key retries.
version = 2
# The bits of a word: 8, 16, 32 or 64.
width = 8
# How many RAM words there are: 1 to 65536.
ram = 64
# How many flash words there are: 0 to 65536. Left out: 0.
flash = 16
# A word is a text of width / 4 hexadecimal digits. This one stands in each RAM word at first. Left out: all bits 0.
initial = "00"

# A parameter set of the RAM test. There are 1 to 16; sets and blocks count from 0.
[[set]]
# checkerboard, march, walk-path, galpat or transparent-galpat.
algorithm = "march"
# For march alone: at most 16 elements of at most 8 operations. Left out: March C-, which is this one.
march = "{*(w0); u(r0,w1); u(r1,w0); d(r0,w1); d(r1,w0); *(r0)}"
# The background of the cells, a word. Left out: all bits 0.
background = "00"
# The most words of a slice, which is tested with interrupts held: 1 to 64.
atomic = 4
# The most words that a tick tests: atomic to 65536.
cells = 8
# In version 2 alone: how often urgent requests may break off the test of one slice in one event, 0 to 16. Left out: 2.
retries = 2

# A block of the set. There are 1 to 64, and no two share a word.
[[set.block]]
# The first and the last address, with last below ram.
first = 0
last = 15
# non-destructive: the words are restored. destructive: each word is fill after the test.
policy = "non-destructive"

[[set.block]]
first = 16
last = 31
policy = "destructive"
# What the words hold after a destructive test, a word. Left out: all bits 0.
fill = "a5"

# What the flash test compares. The whole table may be left out.
[fls]
# The most words of a slice: 1 to 64.
atomic = 4
# The most words that a tick compares: atomic to 65536.
cells = 8
# The last identifier of a test interval, after which 0 comes again: 0 to 65535.
interval_end = 255

# A block that ticks compare. There are at most 64.
[[fls.bgnd]]
# The first and the last address, with last below flash.
first = 0
last = 7
# The first address of the copy, which is as long as the block, lies in the flash and shares no word with the block.
copy = 8

# A block that is compared on demand. There are at most 64.
[[fls.fgnd]]
first = 0
last = 3
copy = 8

# The script comes after the next line: one event a line. docs/SCRIPT.md has them all.
=====
# Start the RAM test.
ram Init
ram Allow
# The application writes c4 to word 3.
app w 3 c4
# A tick. An interrupt request comes after 5 test accesses; its handler reads word 3.
tick ram @5[r 3]
tick ram
tick ram
tick ram
# The result of the pass, which those four ticks ended.
ram GetTestResult
# The flash test: one tick is a whole pass.
fls Init
tick fls
fls GetTestResultBgnd
"#;

/// Writes the job to a file that is not there yet.
pub fn write_job<R: Files>(rt: &R, file: &str) -> Result<ExitCode> {
    let mut options = OpenOptions::new();
    options.write(true);
    options.create_new(true);
    let mut out = options
        .open(rt, file)
        .context(format_args!("cannot make the file {file}"))?;
    out.write_all(JOB.as_bytes())?;
    Ok(ExitCode::SUCCESS)
}
