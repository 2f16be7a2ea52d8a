//! The writer.

ghost use Rattle.std.specs.Prelude.{◌≡◌, ◌≤◌, ◌+◌, ◌*◌, ◌++◌, codes, length, All, OnOk, OnErr};
ghost use Rattle.std.specs.Io.KnownBytes.{Appends};
ghost use Rattle.mt_port.specs.Causes.{HasCause};
ghost use Rattle.mt_port.specs.Streams.{AppendsFront};
ghost use Rattle.mt_plan.specs.Plan.{IsAccepted};
ghost use Rattle.mt_hex.specs.Digits.{word_text};
ghost use Rattle.mt_blocks.specs.Accepted.{IsAcceptedSet};
ghost use Rattle.mt_conf.specs.Accepted.{IsAcceptedConfig};
ghost use Rattle.mt_conf.specs.Canonical.{number_entry, text_entry, header, policy_name, algorithm_entries, block_text, blocks_text, retries_entry, set_text, sets_text, flash_block_text, flash_blocks_text, fls_text, top_text, config_text};

use crate::config::Config;
use arrayvec::ArrayVec;
use mt_blocks::{Block, FlashBlock, FlsConfig, ParamSet};
use mt_hex::{push_bytes, push_number, push_word};
use mt_march::march_text;
use mt_plan::{Algorithm, Policy};
use mt_port::{Failed, Shape, Sink, put};
use mt_word::{Width, bits};

/// A part of the text. The longest one is that of FlsTst: 72 bytes, and 69 for each of at most 128 blocks.
type Part = ArrayVec<u8, 8904>;

fn push_number_entry(out: &mut Part, key: &[u8], n: u32)
    requires { length out.old.items + length key.now + 14 ≤ 8904 }
    ensures text { out.new.items ≡ out.old.items ++ number_entry key.now n }
    ensures short { length out.new.items ≤ length out.old.items + length key.now + 14 }
{
    push_bytes(out, key);
    push_bytes(out, b" = ");
    push_number(out, n);
    out.push(b'\n');
}

fn push_text_entry(out: &mut Part, key: &[u8], text: &[u8])
    requires { length out.old.items + length key.now + length text.now + 6 ≤ 8904 }
    ensures text { out.new.items ≡ out.old.items ++ text_entry key.now text.now }
    ensures short { length out.new.items ≤ length out.old.items + length key.now + length text.now + 6 }
{
    push_bytes(out, key);
    push_bytes(out, b" = \"");
    push_bytes(out, text);
    push_bytes(out, b"\"\n");
}

fn push_word_entry(out: &mut Part, key: &[u8], width: Width, word: u64)
    requires { length out.old.items + length key.now + 22 ≤ 8904 }
    ensures text { out.new.items ≡ out.old.items ++ text_entry key.now (word_text width word) }
    ensures short { length out.new.items ≤ length out.old.items + length key.now + 22 }
{
    push_bytes(out, key);
    push_bytes(out, b" = \"");
    push_word(out, width, word);
    push_bytes(out, b"\"\n");
}

fn push_header(out: &mut Part, name: &[u8])
    requires { length out.old.items + length name.now + 2 ≤ 8904 }
    ensures text { out.new.items ≡ out.old.items ++ header name.now }
    ensures short { length out.new.items ≤ length out.old.items + length name.now + 2 }
{
    out.push(b'\n');
    push_bytes(out, name);
    out.push(b'\n');
}

fn policy_name(policy: Policy) -> &'static [u8]
    ensures value { result.now ≡ policy_name policy }
    ensures short { length result.now ≤ 15 }
{
    match policy {
        Policy::NonDestructive => b"non-destructive",
        Policy::Destructive => b"destructive",
    }
}

fn push_algorithm(out: &mut Part, algorithm: &Algorithm)
    requires accepted { IsAccepted algorithm.now }
    requires room { length out.old.items + 479 ≤ 8904 }
    ensures text { out.new.items ≡ out.old.items ++ algorithm_entries algorithm.now }
    ensures short { length out.new.items ≤ length out.old.items + 479 }
{
    match algorithm {
        Algorithm::Checkerboard => push_text_entry(out, b"algorithm", b"checkerboard"),
        Algorithm::March(march) => {
            push_text_entry(out, b"algorithm", b"march");
            push_text_entry(out, b"march", &march_text(march));
        }
        Algorithm::WalkPath => push_text_entry(out, b"algorithm", b"walk-path"),
        Algorithm::Galpat => push_text_entry(out, b"algorithm", b"galpat"),
        Algorithm::TransparentGalpat => push_text_entry(out, b"algorithm", b"transparent-galpat"),
    }
}

#[tactic(auto, unfolding(crate::specs::Canonical::block_text))]
fn push_block(out: &mut Part, width: Width, block: &Block)
    requires { length out.old.items + 105 ≤ 8904 }
    ensures text { out.new.items ≡ out.old.items ++ block_text width block.now }
    ensures short { length out.new.items ≤ length out.old.items + 105 }
{
    push_header(out, b"[[set.block]]");
    push_number_entry(out, b"first", block.span.first);
    push_number_entry(out, b"last", block.span.last);
    push_text_entry(out, b"policy", policy_name(block.policy));
    push_word_entry(out, b"fill", width, block.fill);
}

fn push_blocks(out: &mut Part, width: Width, blocks: &[Block])
    requires { length out.old.items + 105 * length blocks.now ≤ 8904 }
    ensures text { out.new.items ≡ out.old.items ++ blocks_text width blocks.now }
    ensures short { length out.new.items ≤ length out.old.items + 105 * length blocks.now }
{
    for block in blocks {
        push_block(out, width, block);
    }
}

fn push_retries(out: &mut Part, version: u8, retries: u32)
    requires { length out.old.items + 21 ≤ 8904 }
    ensures text { out.new.items ≡ out.old.items ++ retries_entry version retries }
    ensures short { length out.new.items ≤ length out.old.items + 21 }
{
    if version == 2 {
        push_number_entry(out, b"retries", retries);
    }
}

#[tactic(auto, unfolding(crate::specs::Canonical::set_text))]
fn set_text(version: u8, shape: Shape, set: &ParamSet) -> Part
    requires { IsAcceptedSet shape set.now }
    ensures { result.items ≡ set_text version shape.width set.now }
{
    let mut out = ArrayVec::new();
    push_header(&mut out, b"[[set]]");
    push_algorithm(&mut out, &set.alg);
    push_word_entry(&mut out, b"background", shape.width, set.background);
    push_number_entry(&mut out, b"atomic", set.atomic);
    push_number_entry(&mut out, b"cells", set.cells);
    push_retries(&mut out, version, set.retries);
    push_blocks(&mut out, shape.width, set.blocks.as_slice());
    out
}

#[tactic(auto, unfolding(crate::specs::Canonical::flash_block_text))]
fn push_flash_block(out: &mut Part, name: &[u8], block: FlashBlock)
    requires { length out.old.items + length name.now + 57 ≤ 8904 }
    ensures text { out.new.items ≡ out.old.items ++ flash_block_text name.now block }
    ensures short { length out.new.items ≤ length out.old.items + length name.now + 57 }
{
    push_header(out, name);
    push_number_entry(out, b"first", block.span.first);
    push_number_entry(out, b"last", block.span.last);
    push_number_entry(out, b"copy", block.copy);
}

fn push_flash_blocks(out: &mut Part, name: &[u8], blocks: &[FlashBlock])
    requires name { length name.now ≤ 12 }
    requires room { length out.old.items + 69 * length blocks.now ≤ 8904 }
    ensures text { out.new.items ≡ out.old.items ++ flash_blocks_text name.now blocks.now }
    ensures short { length out.new.items ≤ length out.old.items + 69 * length blocks.now }
{
    for block in blocks {
        push_flash_block(out, name, *block);
    }
}

#[tactic(auto, unfolding(crate::specs::Canonical::fls_text))]
fn fls_text(fls: &FlsConfig) -> Part
    requires bgnd { length fls.now.bgnd ≤ 64 }
    requires fgnd { length fls.now.fgnd ≤ 64 }
    ensures { result.items ≡ fls_text fls.now }
{
    let mut out = ArrayVec::new();
    push_header(&mut out, b"[fls]");
    push_number_entry(&mut out, b"atomic", fls.atomic);
    push_number_entry(&mut out, b"cells", fls.cells);
    push_number_entry(&mut out, b"interval_end", fls.interval_end);
    push_flash_blocks(&mut out, b"[[fls.bgnd]]", fls.bgnd.as_slice());
    push_flash_blocks(&mut out, b"[[fls.fgnd]]", fls.fgnd.as_slice());
    out
}

#[tactic(auto, unfolding(crate::specs::Canonical::top_text))]
fn top_text(config: &Config) -> Part
    ensures { result.items ≡ top_text config.now }
{
    let mut out = ArrayVec::new();
    push_number_entry(&mut out, b"version", u32::from(config.version));
    push_number_entry(&mut out, b"width", bits(config.shape.width));
    push_number_entry(&mut out, b"ram", config.shape.ram);
    push_number_entry(&mut out, b"flash", config.shape.flash);
    push_word_entry(&mut out, b"initial", config.shape.width, config.initial);
    out
}

fn write_sets<K: Sink>(
    version: u8,
    shape: Shape,
    sets: &[ParamSet],
    sink: &mut K,
) -> Result<(), Failed>
    requires { All (IsAcceptedSet shape) sets.now }
    ensures ok { OnOk result (Appends (K.held sink.old) (K.held sink.new) (sets_text version shape.width sets.now)) }
    ensures err { OnErr result
        (AppendsFront (K.held sink.old) (K.held sink.new) (sets_text version shape.width sets.now)) }
    ensures cause { HasCause (K.faults sink.old) (K.faults sink.new) result }
{
    for set in sets {
        put(sink, &set_text(version, shape, set))?;
    }
    Ok(())
}

/// Writes the canonical text of a configuration: the top table, each set and then its blocks, and the table of FlsTst
/// and then its blocks. Each key that the version has is written, in one order, also where it has its default; `march` is
/// written for the algorithm `march` alone. A table other than the first begins with an empty line.
///
/// It takes no memory.
#[tactic(auto, unfolding(crate::specs::Canonical::config_text))]
pub fn write_config<K: Sink>(config: &Config, sink: &mut K) -> Result<(), Failed>
    requires { IsAcceptedConfig config.now }
    ensures ok { OnOk result (Appends (K.held sink.old) (K.held sink.new) (config_text config.now)) }
    ensures err { OnErr result (AppendsFront (K.held sink.old) (K.held sink.new) (config_text config.now)) }
    ensures cause { HasCause (K.faults sink.old) (K.faults sink.new) result }
{
    put(sink, &top_text(config))?;
    let sets = config.ram_tst.sets.as_slice();
    write_sets(config.version, config.shape, sets, sink)?;
    put(sink, &fls_text(&config.fls_tst))
}
