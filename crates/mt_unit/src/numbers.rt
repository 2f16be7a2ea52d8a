//! All numbers of a configuration's tables.

ghost use Rattle.std.specs.Prelude.{◌≡◌, ◌≤◌, ◌++◌, ℕ, All, IfOk, OnOk};
ghost use Rattle.std.specs.List.{flat_map};
ghost use Rattle.mt_plan.specs.Plan.{IsAccepted};
ghost use Rattle.mt_blocks.specs.Accepted.{IsAcceptedFls, IsAcceptedRam, IsAcceptedSet};
ghost use Rattle.mt_unit.specs.Plans.{plan_of};
ghost use Rattle.mt_unit.specs.Tables.{flash_row, flash_table, fls_fields, fls_numbers, lengths_of, plan_row, ram_numbers, set_row, set_tables};

use crate::crc::checksum;
use crate::plan::push_plan;
use crate::state_tables::{push_fls_table, push_ram_table};
use crate::tables::{
    lengths_of, push_all, push_blocks, push_fields, push_plan_row, rest_in, slices_in,
};
use mt_blocks::{FlashBlock, FlsConfig, ParamSet, RamConfig};
use mt_port::Shape;
use std::alloc::{AllocError, Global};

/// Appends the row of a set.
fn push_set(alloc: Global, set: &ParamSet, out: &mut Vec<u64>) -> Result<(), AllocError>
    requires some { 1 ≤ set.now.atomic }
    requires small { set.now.atomic ≤ 64 }
    ensures { OnOk result (out.new.items ≡ out.old.items ++ set_row set.now) }
{
    let mut summed = Vec::new(alloc);
    push_fields(set, &mut summed)?;
    push_blocks(set, &mut summed)?;
    let sum = checksum(8, summed.as_slice());
    push_fields(set, out)?;
    out.push(u64::from(sum))?;
    Ok(())
}

/// Appends the plans of a set.
fn push_plans(set: &ParamSet, lengths: &[u32], out: &mut Vec<u64>) -> Result<(), AllocError>
    requires accepted { IsAccepted set.now.alg }
    requires lengths { All (λ (n : ℕ). (1 ≤ n) × (n ≤ 64)) lengths.now }
    ensures { OnOk result (out.new.items ≡ out.old.items ++ flat_map (plan_of set.now.alg) lengths.now) }
{
    for n in lengths {
        push_plan(&set.alg, *n, out)?;
    }
    Ok(())
}

/// Appends what the tables say of the plans of a set.
fn push_plan_rows(
    alloc: Global,
    set: &ParamSet,
    lengths: &[u32],
    out: &mut Vec<u64>,
) -> Result<(), AllocError>
    requires accepted { IsAccepted set.now.alg }
    requires lengths { All (λ (n : ℕ). (1 ≤ n) × (n ≤ 64)) lengths.now }
    ensures { OnOk result (out.new.items ≡ out.old.items ++ flat_map (plan_row set.now.alg) lengths.now) }
{
    for n in lengths {
        push_plan_row(alloc, &set.alg, *n, out)?;
    }
    Ok(())
}

/// Appends the tables of a set: its plans, what is said of them, and its blocks.
fn push_tables(alloc: Global, set: &ParamSet, out: &mut Vec<u64>) -> Result<(), AllocError>
    requires accepted { IsAccepted set.now.alg }
    requires some { 1 ≤ set.now.atomic }
    requires small { set.now.atomic ≤ 64 }
    ensures { OnOk result (out.new.items ≡ out.old.items ++ set_tables set.now) }
{
    let lengths = lengths_of(set);
    push_plans(set, lengths.as_slice(), out)?;
    push_plan_rows(alloc, set, lengths.as_slice(), out)?;
    push_blocks(set, out)
}

fn push_all_tables(
    alloc: Global,
    _shape: Shape,
    sets: &[ParamSet],
    out: &mut Vec<u64>,
) -> Result<(), AllocError>
    requires { All (IsAcceptedSet _shape) sets.now }
    ensures { OnOk result (out.new.items ≡ out.old.items ++ flat_map set_tables sets.now) }
{
    for set in sets {
        push_tables(alloc, set, out)?;
    }
    Ok(())
}

fn push_all_sets(
    alloc: Global,
    _shape: Shape,
    sets: &[ParamSet],
    out: &mut Vec<u64>,
) -> Result<(), AllocError>
    requires { All (IsAcceptedSet _shape) sets.now }
    ensures { OnOk result (out.new.items ≡ out.old.items ++ flat_map set_row sets.now) }
{
    for set in sets {
        push_set(alloc, set, out)?;
    }
    Ok(())
}

/// The numbers of RamTst's tables, in the order in which its C file has them: plans, blocks, sets, and the
/// state table.
#[tactic(auto, unfolding(crate::specs::Tables::ram_numbers))]
pub fn ram_numbers(alloc: Global, shape: Shape, config: &RamConfig) -> Result<Vec<u64>, AllocError>
    requires { IsAcceptedRam shape config.now }
    ensures { IfOk result (λ numbers. numbers.items ≡ ram_numbers config.now.sets) }
{
    let mut numbers = Vec::new(alloc);
    push_all_tables(alloc, shape, config.sets.as_slice(), &mut numbers)?;
    push_all_sets(alloc, shape, config.sets.as_slice(), &mut numbers)?;
    let mut table = Vec::new(alloc);
    push_ram_table(&mut table)?;
    push_all(&mut numbers, table.as_slice())?;
    numbers.push(config.sets.as_slice().len() as u64)?;
    numbers.push(u64::from(checksum(1, table.as_slice())))?;
    Ok(numbers)
}

/// Appends the rows of some flash blocks.
fn push_flash(atomic: u32, blocks: &[FlashBlock], out: &mut Vec<u64>) -> Result<(), AllocError>
    requires { 1 ≤ atomic }
    ensures { OnOk result (out.new.items ≡ out.old.items ++ flat_map (flash_row atomic) blocks.now) }
{
    for block in blocks {
        push_all(
            out,
            &[
                u64::from(block.span.first),
                u64::from(block.copy),
                slices_in(atomic, block.span),
                rest_in(atomic, block.span),
            ],
        )?;
    }
    Ok(())
}

/// Appends the flash blocks of both kinds.
fn push_flash_table(fls: &FlsConfig, out: &mut Vec<u64>) -> Result<(), AllocError>
    requires { 1 ≤ fls.now.atomic }
    ensures { OnOk result (out.new.items ≡ out.old.items ++ flash_table fls.now) }
{
    push_flash(fls.atomic, fls.bgnd.as_slice(), out)?;
    push_flash(fls.atomic, fls.fgnd.as_slice(), out)
}

/// Appends the fields of FlsTst.
fn push_fls_fields(fls: &FlsConfig, out: &mut Vec<u64>) -> Result<(), AllocError>
    ensures { OnOk result (out.new.items ≡ out.old.items ++ fls_fields fls.now) }
{
    push_all(
        out,
        &[
            u64::from(fls.atomic),
            u64::from(fls.cells),
            u64::from(fls.interval_end),
            fls.bgnd.as_slice().len() as u64,
            fls.fgnd.as_slice().len() as u64,
        ],
    )
}

/// The numbers of FlsTst's tables, in the order in which its C file has them: blocks, the state table, and
/// the module's fields.
#[tactic(auto, unfolding(crate::specs::Tables::fls_numbers))]
pub fn fls_numbers(alloc: Global, _shape: Shape, fls: &FlsConfig) -> Result<Vec<u64>, AllocError>
    requires { IsAcceptedFls _shape fls.now }
    ensures { IfOk result (λ numbers. numbers.items ≡ fls_numbers fls.now) }
{
    let mut summed = Vec::new(alloc);
    push_fls_fields(fls, &mut summed)?;
    push_flash_table(fls, &mut summed)?;
    let sum = checksum(8, summed.as_slice());
    let mut numbers = Vec::new(alloc);
    push_flash_table(fls, &mut numbers)?;
    let mut table = Vec::new(alloc);
    push_fls_table(&mut table)?;
    push_all(&mut numbers, table.as_slice())?;
    push_fls_fields(fls, &mut numbers)?;
    numbers.push(u64::from(sum))?;
    numbers.push(u64::from(checksum(1, table.as_slice())))?;
    Ok(numbers)
}
