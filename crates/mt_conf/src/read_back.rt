//! That a configuration is read back from its canonical text.

ghost use Rattle.std.specs.Prelude.{IfOk};
ghost use Rattle.mt_conf.specs.Accepted.{IsAcceptedConfig};

use crate::{Config, ConfigRefusal, read_config, write_config};
use mt_blocks::{FlsConfig, ParamSet};
use mt_march::{Element, March};
use mt_plan::Algorithm;
use mt_port::MemSink;
use std::alloc::Global;

const TWO_POLICIES: &str = "version = 1
width = 8
ram = 6
[[set]]
algorithm = \"march\"
atomic = 2
cells = 2
[[set.block]]
first = 0
last = 1
policy = \"destructive\"
fill = \"ff\"
[[set.block]]
first = 2
last = 3
policy = \"non-destructive\"
";

const CHECKERBOARD: &str = "version = 1
width = 8
ram = 4
initial = \"ff\"
[[set]]
algorithm = \"checkerboard\"
background = \"ff\"
atomic = 4
cells = 4
[[set.block]]
first = 0
last = 3
policy = \"non-destructive\"
";

const FLASH: &str = "version = 1
width = 8
ram = 10
flash = 16
[[set]]
algorithm = \"march\"
atomic = 4
cells = 8
[[set.block]]
first = 0
last = 9
policy = \"non-destructive\"
[fls]
atomic = 2
cells = 4
interval_end = 2
[[fls.bgnd]]
first = 0
last = 5
copy = 8
";

const REALISTIC: &str = "version = 1
width = 32
ram = 4096
[[set]]
algorithm = \"march\"
atomic = 16
cells = 256
[[set.block]]
first = 0
last = 511
policy = \"non-destructive\"
[[set.block]]
first = 512
last = 1023
policy = \"non-destructive\"
[[set.block]]
first = 1024
last = 2047
policy = \"non-destructive\"
[[set.block]]
first = 2048
last = 3071
policy = \"non-destructive\"
[[set.block]]
first = 3072
last = 3583
policy = \"non-destructive\"
[[set.block]]
first = 3584
last = 4095
policy = \"destructive\"
fill = \"deadbeef\"
[[set]]
algorithm = \"transparent-galpat\"
atomic = 8
cells = 32
[[set.block]]
first = 0
last = 63
policy = \"non-destructive\"
";

const WIDE: &str = "version = 2
width = 64
ram = 10
initial = \"FEDCBA9876543210\"
[[set]]
algorithm = \"galpat\"
background = \"ffffffffffffffff\"
atomic = 4
cells = 8
retries = 0
[[set.block]]
first = 0
last = 9
policy = \"destructive\"
fill = \"0000000000000001\"
";

const RETRIES: &str = "version = 2
width = 8
ram = 10
[[set]]
algorithm = \"march\"
atomic = 4
cells = 8
retries = 16
[[set.block]]
first = 0
last = 9
policy = \"non-destructive\"
[[set]]
algorithm = \"checkerboard\"
atomic = 4
cells = 8
[[set.block]]
first = 0
last = 9
policy = \"non-destructive\"
";

/// How a text is read; one that is too long is told as no memory.
fn read(alloc: Global, text: &[u8]) -> Result<Config, ConfigRefusal>
    ensures { IfOk result IsAcceptedConfig }
{
    if text.len() > 65_536 {
        return Err(ConfigRefusal::NoMemory);
    }
    read_config(alloc, text)
}

fn same_element(a: &Element, b: &Element) -> bool {
    a.order == b.order && a.ops.as_slice() == b.ops.as_slice()
}

fn same_march(a: &March, b: &March) -> bool {
    let elements = a.elements.as_slice();
    let others = b.elements.as_slice();
    if elements.len() != others.len() {
        return false;
    }
    for (element, other) in elements.iter().zip(others) {
        if !same_element(element, other) {
            return false;
        }
    }
    true
}

fn same_algorithm(a: &Algorithm, b: &Algorithm) -> bool {
    match (a, b) {
        (Algorithm::March(a), Algorithm::March(b)) => same_march(a, b),
        (Algorithm::Checkerboard, Algorithm::Checkerboard)
        | (Algorithm::WalkPath, Algorithm::WalkPath)
        | (Algorithm::Galpat, Algorithm::Galpat)
        | (Algorithm::TransparentGalpat, Algorithm::TransparentGalpat) => true,
        _ => false,
    }
}

fn same_set(a: &ParamSet, b: &ParamSet) -> bool {
    same_algorithm(&a.alg, &b.alg)
        && (a.background, a.atomic, a.cells, a.retries)
            == (b.background, b.atomic, b.cells, b.retries)
        && a.blocks.as_slice() == b.blocks.as_slice()
}

fn same_sets(sets: &[ParamSet], others: &[ParamSet]) -> bool {
    if sets.len() != others.len() {
        return false;
    }
    for (set, other) in sets.iter().zip(others) {
        if !same_set(set, other) {
            return false;
        }
    }
    true
}

fn same_flash(a: &FlsConfig, b: &FlsConfig) -> bool {
    (a.atomic, a.cells, a.interval_end) == (b.atomic, b.cells, b.interval_end)
        && a.bgnd.as_slice() == b.bgnd.as_slice()
        && a.fgnd.as_slice() == b.fgnd.as_slice()
}

fn same(a: &Config, b: &Config) -> bool {
    a.version == b.version
        && a.shape == b.shape
        && a.initial == b.initial
        && same_sets(a.ram_tst.sets.as_slice(), b.ram_tst.sets.as_slice())
        && same_flash(&a.fls_tst, &b.fls_tst)
}

/// The configuration that the canonical text of another one is; none where it is refused.
fn written_and_read(alloc: Global, config: &Config) -> Option<Config>
    requires { IsAcceptedConfig config.now }
{
    let mut sink = MemSink::new(alloc, 4096, Vec::new(alloc)).ok()?;
    write_config(config, &mut sink).ok()?;
    read(alloc, sink.bytes()).ok()
}

/// A configuration of the table.
fn text_of(row: u32) -> &'static str {
    match row {
        0 => TWO_POLICIES,
        1 => CHECKERBOARD,
        2 => FLASH,
        3 => WIDE,
        4 => RETRIES,
        _ => REALISTIC,
    }
}

/// Whether a configuration of the table is accepted, and read back from its canonical text.
fn is_read_back(alloc: Global, row: u32) -> bool {
    let Ok(config) = read(alloc, text_of(row).as_bytes()) else {
        return false;
    };
    match written_and_read(alloc, &config) {
        Some(again) => same(&config, &again),
        None => false,
    }
}

#[test]
fn configurations_are_read_back(rt: HostRuntime) {
    for row in 0..6 {
        assert!(rt; is_read_back(rt.alloc(), row), "{row}");
    }
}
