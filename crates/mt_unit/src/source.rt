//! The C files of the tables.

ghost use Rattle.std.specs.Prelude.{◌≡◌, ◌≢◌, ◌≤◌, ℕ, All, IfErr, IfOk};
ghost use Rattle.mt_plan.specs.Plan.{IsAccepted};
ghost use Rattle.mt_blocks.specs.Accepted.{IsAcceptedFls, IsAcceptedRam, IsAcceptedSet};
ghost use Rattle.mt_unit.specs.Reading.{numbers_in};
ghost use Rattle.mt_unit.specs.Tables.{fls_numbers, ram_numbers};

use crate::numbers::{fls_numbers, ram_numbers};
use crate::reader::numbers_in;
use crate::tables::lengths_of;
use crate::writer::Writer;
use mt_blocks::{FlsConfig, ParamSet, RamConfig};
use mt_plan::steps;
use mt_port::Shape;
use std::alloc::{AllocError, Global};

/// Why there is no text: memory was not found, or the reader does not read the tables back.
#[derive(Debug, Drop)]
pub enum Unwritten {
    NoMemory,
    NotReadBack,
}

impl From<AllocError> for Unwritten {
    fn from(_error: AllocError) -> Unwritten
        ensures { result ≡ Unwritten.NoMemory }
    {
        Unwritten::NoMemory
    }
}

const MADE: &str =
    "/* Made by mt generate; RamTst_Cfg.h has the configuration. It is not to be edited. */\n";

/// A text, if the reader reads these numbers from it.
fn read_back(alloc: Global, text: Vec<u8>, numbers: &[u64]) -> Result<Vec<u8>, Unwritten>
    ensures given { IfOk result (λ given. given.items ≡ text.items) }
    ensures read { IfOk result (λ given. numbers_in given.items ≡ numbers.now) }
    ensures refused { IfErr result (λ why. why ≡ Unwritten.NotReadBack → numbers_in text.items ≢ numbers.now) }
{
    let Ok(read) = numbers_in(alloc, text.as_slice()) else {
        return Err(Unwritten::NoMemory);
    };
    if read.as_slice() == numbers {
        Ok(text)
    } else {
        Err(Unwritten::NotReadBack)
    }
}

/// The name of a table of a set, as in `RamTst_Plans_0`.
fn say_name(out: &mut Writer<'_>, name: &str, set: u64) -> Result<(), AllocError> {
    out.say(name)?;
    out.name(set)
}

fn say_plan_name(out: &mut Writer<'_>, set: u64, n: u32) -> Result<(), AllocError> {
    say_name(out, "RamTst_Plan_", set)?;
    out.say("_")?;
    out.name(u64::from(n))
}

/// The beginning of a table: its type, its name, and its size.
fn begin(
    out: &mut Writer<'_>,
    kind: &str,
    name: &str,
    set: u64,
    size: usize,
) -> Result<(), AllocError> {
    out.say("static const ")?;
    out.say(kind)?;
    say_name(out, name, set)?;
    out.say("[")?;
    out.name(size as u64)?;
    out.say("] = {\n")
}

/// The steps of a plan.
fn say_plan(out: &mut Writer<'_>, set: &ParamSet, number: u64, n: u32) -> Result<(), AllocError>
    requires accepted { IsAccepted set.now.alg }
    requires small { n ≤ 64 }
{
    let count = steps(&set.alg, n);
    out.say("static const uint8 ")?;
    say_plan_name(out, number, n)?;
    out.say("[")?;
    out.name(u64::from(count))?;
    out.say("] = {\n")?;
    out.take_lines(count)?;
    out.say("};\n\n")
}

/// What a table says of a plan: where its steps are, how many, on how many cells, and the checksum.
fn say_plan_row(out: &mut Writer<'_>, number: u64, n: u32) -> Result<(), AllocError> {
    out.say("    {")?;
    say_plan_name(out, number, n)?;
    out.say(", ")?;
    out.take_some(3)?;
    out.say("},\n")
}

/// The plans of a set for some lengths.
fn say_each_plan(
    out: &mut Writer<'_>,
    set: &ParamSet,
    number: u64,
    lengths: &[u32],
) -> Result<(), AllocError>
    requires accepted { IsAccepted set.now.alg }
    requires lengths { All (λ (n : ℕ). (1 ≤ n) × (n ≤ 64)) lengths.now }
{
    for n in lengths {
        say_plan(out, set, number, *n)?;
    }
    Ok(())
}

/// The plans of a set, and what the tables say of them.
fn say_plans(out: &mut Writer<'_>, set: &ParamSet, number: u64) -> Result<(), AllocError>
    requires accepted { IsAccepted set.now.alg }
    requires some { 1 ≤ set.now.atomic }
{
    let lengths = lengths_of(set);
    say_each_plan(out, set, number, lengths.as_slice())?;
    begin(
        out,
        "MemTst_PlanType ",
        "RamTst_Plans_",
        number,
        lengths.len(),
    )?;
    for n in lengths.as_slice() {
        say_plan_row(out, number, *n)?;
    }
    out.say("};\n\n")
}

/// The blocks of a set.
fn say_blocks(out: &mut Writer<'_>, set: &ParamSet, number: u64) -> Result<(), AllocError> {
    let count = set.blocks.as_slice().len();
    begin(out, "RamTst_BlockType ", "RamTst_Blocks_", number, count)?;
    for _block in set.blocks.as_slice() {
        out.take_row(5)?;
    }
    out.say("};\n\n")
}

/// The row of a set: seven numbers, its plans and how many, its blocks and how many, and the checksum.
fn say_set(out: &mut Writer<'_>, number: u64) -> Result<(), AllocError> {
    out.say("    {")?;
    out.take_some(7)?;
    say_name(out, ", RamTst_Plans_", number)?;
    out.say(", ")?;
    out.take()?;
    say_name(out, ", RamTst_Blocks_", number)?;
    out.say(", ")?;
    out.take_some(2)?;
    out.say("},\n")
}

/// The cells of a state table of six columns.
fn say_cells(out: &mut Writer<'_>, head: &str, rows: u32) -> Result<(), AllocError> {
    out.say(head)?;
    for _row in 0..rows {
        out.say("   ")?;
        for _column in 0..6u32 {
            out.say(" {")?;
            out.take_some(2)?;
            out.say("},")?;
        }
        out.say("\n")?;
    }
    out.say("};\n\n")
}

fn say_ram(out: &mut Writer<'_>, _shape: Shape, sets: &[ParamSet]) -> Result<(), AllocError>
    requires { All (IsAcceptedSet _shape) sets.now }
{
    out.say(MADE)?;
    out.say("#include \"RamTst.h\"\n\n")?;
    for (number, set) in sets.iter().enumerate() {
        say_plans(out, set, number as u64)?;
        say_blocks(out, set, number as u64)?;
    }
    out.say("static const RamTst_AlgParamsType RamTst_Sets[RAMTST_SETS] = {\n")?;
    for (number, _set) in sets.iter().enumerate() {
        say_set(out, number as u64)?;
    }
    out.say("};\n\n")?;
    say_cells(
        out,
        "static const RamTst_CellType RamTst_Table[RAMTST_SERVICES * RAMTST_STATES] = {\n",
        18,
    )?;
    out.say("const RamTst_ConfigType RamTst_Config = {RamTst_Sets, ")?;
    out.take()?;
    out.say(", RamTst_Table, ")?;
    out.take()?;
    out.say("};\n")
}

/// `RamTst_Cfg.c`. The reader reads the numbers of RamTst's tables back from it.
pub fn ram_source(alloc: Global, shape: Shape, config: &RamConfig) -> Result<Vec<u8>, Unwritten>
    requires { IsAcceptedRam shape config.now }
    ensures { IfOk result (λ text. numbers_in text.items ≡ ram_numbers config.now.sets) }
{
    let numbers = ram_numbers(alloc, shape, config)?;
    let mut out = Writer::new(alloc, numbers.as_slice());
    say_ram(&mut out, shape, config.sets.as_slice())?;
    read_back(alloc, out.into_text(), numbers.as_slice())
}

/// The blocks of one kind, if there are some.
fn say_flash(out: &mut Writer<'_>, name: &str, count: usize) -> Result<(), AllocError> {
    if count > 0 {
        out.say("static const FlsTst_BlockType ")?;
        out.say(name)?;
        out.say("[")?;
        out.name(count as u64)?;
        out.say("] = {\n")?;
        for _block in 0..count {
            out.take_row(4)?;
        }
        out.say("};\n\n")?;
    }
    Ok(())
}

/// The name of the blocks of one kind, and how many they are.
fn say_flash_field(out: &mut Writer<'_>, name: &str, count: usize) -> Result<(), AllocError> {
    out.say(", ")?;
    out.say(if count > 0 { name } else { "NULL_PTR" })?;
    out.say(", ")?;
    out.take()
}

fn say_fls(out: &mut Writer<'_>, fls: &FlsConfig) -> Result<(), AllocError> {
    let bgnd = fls.bgnd.as_slice().len();
    let fgnd = fls.fgnd.as_slice().len();
    out.say(MADE)?;
    out.say("#include \"FlsTst.h\"\n\n")?;
    say_flash(out, "FlsTst_Bgnd", bgnd)?;
    say_flash(out, "FlsTst_Fgnd", fgnd)?;
    say_cells(
        out,
        "static const FlsTst_CellType FlsTst_Table[FLSTST_SERVICES * FLSTST_STATES] = {\n",
        12,
    )?;
    out.say("const FlsTst_ConfigType FlsTst_Config = {")?;
    out.take_some(3)?;
    say_flash_field(out, "FlsTst_Bgnd", bgnd)?;
    say_flash_field(out, "FlsTst_Fgnd", fgnd)?;
    out.say(", ")?;
    out.take()?;
    out.say(", FlsTst_Table, ")?;
    out.take()?;
    out.say("};\n")
}

/// `FlsTst_Cfg.c`. The reader reads the numbers of FlsTst's tables back from it.
pub fn fls_source(alloc: Global, shape: Shape, fls: &FlsConfig) -> Result<Vec<u8>, Unwritten>
    requires { IsAcceptedFls shape fls.now }
    ensures { IfOk result (λ text. numbers_in text.items ≡ fls_numbers fls.now) }
{
    let numbers = fls_numbers(alloc, shape, fls)?;
    let mut out = Writer::new(alloc, numbers.as_slice());
    say_fls(&mut out, fls)?;
    read_back(alloc, out.into_text(), numbers.as_slice())
}
