//! The C headers of the tables: sizes, the longest locks, and the configuration as a comment.

ghost use Rattle.std.specs.Prelude.{◌≡◌, ◌≤◌, All, max};
ghost use Rattle.mt_plan.specs.Plan.{IsAccepted};
ghost use Rattle.mt_blocks.specs.Accepted.{IsAcceptedFls, IsAcceptedRam, IsAcceptedSet};
ghost use Rattle.mt_unit.specs.Tables.{lock_of, longest_lock};

use crate::tables::words_in;
use crate::writer::Writer;
use mt_blocks::{Block, FlsConfig, ParamSet, RamConfig};
use mt_plan::{Algorithm, hold_of};
use mt_port::Shape;
use mt_word::bits;
use std::alloc::{AllocError, Global};

fn greater(one: u32, other: u32) -> u32
    ensures { result ≡ max one other }
{
    if one < other { other } else { one }
}

/// For how many accesses the longest slice of a block holds interrupts.
fn lock_of(algorithm: &Algorithm, atomic: u32, block: &Block) -> u32
    requires accepted { IsAccepted algorithm.now }
    requires some { 1 ≤ atomic }
    requires small { atomic ≤ 64 }
    ensures { result ≡ lock_of algorithm.now atomic block.now }
{
    let words = words_in(block.span);
    let longest = if words < u64::from(atomic) {
        words as u32
    } else {
        atomic
    };
    hold_of(algorithm, block.policy, longest)
}

/// For how many accesses the longest slice of a set holds interrupts.
pub fn longest_lock(set: &ParamSet) -> u32
    requires accepted { IsAccepted set.now.alg }
    requires some { 1 ≤ set.now.atomic }
    requires small { set.now.atomic ≤ 64 }
    ensures { result ≡ longest_lock set.now }
{
    let mut longest = 0;
    for block in set.blocks.as_slice() {
        longest = greater(longest, lock_of(&set.alg, set.atomic, block));
    }
    longest
}

/// The most blocks of a set.
fn most_blocks(sets: &[ParamSet]) -> usize {
    let mut most = 0;
    for set in sets {
        let count = set.blocks.as_slice().len();
        most = if most < count { count } else { most };
    }
    most
}

/// A configuration's text, line by line in a comment.
fn say_comment(out: &mut Writer<'_>, text: &str) -> Result<(), AllocError> {
    out.say(
        "/*\n * Made by mt generate from the configuration below. It is not to be edited.\n *\n",
    )?;
    for line in text.lines() {
        out.say(if line.is_empty() { " *" } else { " * " })?;
        out.say(line)?;
        out.say("\n")?;
    }
    out.say(" */\n")
}

fn say_size(out: &mut Writer<'_>, name: &str, size: u64) -> Result<(), AllocError> {
    out.say("#define ")?;
    out.say(name)?;
    out.say(" ")?;
    out.name(size)?;
    out.say("u\n")
}

fn say_locks(out: &mut Writer<'_>, _shape: Shape, sets: &[ParamSet]) -> Result<(), AllocError>
    requires { All (IsAcceptedSet _shape) sets.now }
{
    out.say("\n/* For how many accesses the longest slice of each set holds interrupts. */\n")?;
    for (number, set) in sets.iter().enumerate() {
        out.say("#define RAMTST_LONGEST_LOCK_")?;
        out.name(number as u64)?;
        say_size_of(out, longest_lock(set))?;
    }
    Ok(())
}

fn say_size_of(out: &mut Writer<'_>, size: u32) -> Result<(), AllocError> {
    out.say(" ")?;
    out.name(u64::from(size))?;
    out.say("u\n")
}

/// `RamTst_Cfg.h`, with the text of the configuration as a comment. `initial` is the word that a simulated RAM holds at first.
pub fn ram_header(
    alloc: Global,
    shape: Shape,
    initial: u64,
    config: &RamConfig,
    text: &str,
) -> Result<Vec<u8>, AllocError>
    requires { IsAcceptedRam shape config.now }
{
    let mut out = Writer::new(alloc, &[]);
    let sets = config.sets.as_slice();
    say_comment(&mut out, text)?;
    out.say(
        "#ifndef RAMTST_CFG_H\n#define RAMTST_CFG_H\n\n/* The memory: bits of a word, and how many words. */\n#define MEMTST_WIDTH ",
    )?;
    out.name(u64::from(bits(shape.width)))?;
    out.say("\n")?;
    say_size(&mut out, "MEMTST_RAM_WORDS", u64::from(shape.ram))?;
    say_size(&mut out, "MEMTST_FLASH_WORDS", u64::from(shape.flash))?;
    out.say("\n/* What each word of a simulated RAM holds at first. */\n")?;
    say_size(&mut out, "MEMTST_INITIAL", initial)?;
    out.say("\n/* How many parameter sets there are, and the most blocks of one. */\n")?;
    say_size(&mut out, "RAMTST_SETS", sets.len() as u64)?;
    say_size(&mut out, "RAMTST_MOST_BLOCKS", most_blocks(sets) as u64)?;
    say_locks(&mut out, shape, sets)?;
    out.say("\n#endif\n")?;
    Ok(out.into_text())
}

/// `FlsTst_Cfg.h`, with the text of the configuration as a comment.
pub fn fls_header(
    alloc: Global,
    _shape: Shape,
    fls: &FlsConfig,
    text: &str,
) -> Result<Vec<u8>, AllocError>
    requires { IsAcceptedFls _shape fls.now }
{
    let mut out = Writer::new(alloc, &[]);
    say_comment(&mut out, text)?;
    out.say("#ifndef FLSTST_CFG_H\n#define FLSTST_CFG_H\n\n/* How many blocks there are. */\n")?;
    say_size(
        &mut out,
        "FLSTST_BGND_BLOCKS",
        fls.bgnd.as_slice().len() as u64,
    )?;
    say_size(
        &mut out,
        "FLSTST_FGND_BLOCKS",
        fls.fgnd.as_slice().len() as u64,
    )?;
    out.say("\n/* For how many accesses the longest slice holds interrupts. */\n")?;
    say_size(&mut out, "FLSTST_LONGEST_LOCK", 2 * u64::from(fls.atomic))?;
    out.say("\n#endif\n")?;
    Ok(out.into_text())
}
