//! The numbers of a control unit's tables.

ghost use Rattle.std.specs.Prelude.{◌≡◌, ◌≤◌, ◌<◌, ◌+◌, ◌++◌, ◌∷◌, [], ℕ, true, length, All, OnOk, filter, ◌==◌};
ghost use Rattle.std.specs.List.{flat_map, list_any, range_with_len};
ghost use Rattle.mt_plan.specs.Plan.{IsAccepted};
ghost use Rattle.mt_seq.specs.Sequence.{is_transparent};
ghost use Rattle.mt_blocks.specs.declared.config.Block.{Block as BlockModel};
ghost use Rattle.mt_blocks.specs.declared.config.ParamSet.{ParamSet as SetModel};
ghost use Rattle.mt_unit.specs.Checksums.{checksum};
ghost use Rattle.mt_unit.specs.Plans.{plan_of};
ghost use Rattle.mt_unit.specs.Tables.{algorithm_number, bit_of, block_row, blocks_table, flash_row, flash_table, fls_fields, fls_numbers, is_needed, lengths_below, lengths_of, place_of, plan_row, policy_number, ram_numbers, rest_in, set_fields, set_row, set_tables, slices_in, words_in};

use crate::crc::checksum;
use crate::plan::push_plan;
use arrayvec::ArrayVec;
use mt_blocks::{Block, FlashBlock, FlsConfig, ParamSet, Span};
use mt_plan::{Algorithm, Policy, steps};
use std::alloc::{AllocError, Global};

/// How many words a span has.
pub fn words_in(span: Span) -> u64
    ensures words { result ≡ words_in span }
    ensures some { 1 ≤ result }
    ensures few { result ≤ 4294967296 }
{
    u64::from(span.last).saturating_sub(u64::from(span.first)) + 1
}

/// In how many slices of at most so many words it is cut.
pub fn slices_in(atomic: u32, span: Span) -> u64
    requires { 1 ≤ atomic }
    ensures { result ≡ slices_in atomic span }
{
    (words_in(span) + u64::from(atomic) - 1) / u64::from(atomic)
}

/// How many words the last of these has.
pub fn rest_in(atomic: u32, span: Span) -> u64
    requires { 1 ≤ atomic }
    ensures words { result ≡ rest_in atomic span }
    ensures some { 1 ≤ result }
    ensures few { result ≤ atomic }
{
    (words_in(span) - 1) % u64::from(atomic) + 1
}

/// Whether the last slice of some block has so many words.
fn is_rest(atomic: u32, blocks: &[Block], n: u32) -> bool
    requires { 1 ≤ atomic }
    ensures { result ≡ list_any (λ (b : BlockModel). rest_in atomic b.span == n) blocks.now }
{
    for block in blocks {
        if rest_in(atomic, block.span) == u64::from(n) {
            return true;
        }
    }
    false
}

/// Whether a set has a plan for so many cells.
fn is_needed(set: &ParamSet, n: u32) -> bool
    requires { 1 ≤ set.now.atomic }
    ensures { result ≡ is_needed set.now n }
{
    n == set.atomic || is_rest(set.atomic, set.blocks.as_slice(), n)
}

/// Appends a length if the set has a plan for it.
fn push_if_needed(lengths: &mut ArrayVec<u32, 64>, set: &ParamSet, n: u32)
    requires atomic { 1 ≤ set.now.atomic }
    requires room { length lengths.old.items < 64 }
    ensures items { lengths.new.items ≡ lengths.old.items ++ filter (is_needed set.now) (n ∷ []) }
    ensures short { length lengths.new.items ≤ length lengths.old.items + 1 }
{
    if is_needed(set, n) {
        lengths.push(n);
    }
}

/// The lengths below n for which a set has a plan.
fn lengths_below(set: &ParamSet, n: u32) -> ArrayVec<u32, 64>
    requires atomic { 1 ≤ set.now.atomic }
    requires some { 1 ≤ n }
    requires small { n ≤ 65 }
    ensures { result.items ≡ lengths_below set.now n }
{
    let mut lengths = ArrayVec::new();
    for length in 1..n {
        push_if_needed(&mut lengths, set, length);
    }
    lengths
}

/// The place of the plan for n cells among those of a set.
fn place_of(set: &ParamSet, n: u32) -> u64
    requires atomic { 1 ≤ set.now.atomic }
    requires some { 1 ≤ n }
    requires small { n ≤ 65 }
    ensures { result ≡ place_of set.now n }
{
    lengths_below(set, n).len() as u64
}

/// The lengths for which a set has a plan, in rising order.
pub fn lengths_of(set: &ParamSet) -> ArrayVec<u32, 64>
    requires { 1 ≤ set.now.atomic }
    ensures { result.items ≡ lengths_of set.now }
{
    lengths_below(set, 65)
}

/// Appends some numbers.
pub(crate) fn push_all(out: &mut Vec<u64>, numbers: &[u64]) -> Result<(), AllocError>
    ensures { OnOk result (out.new.items ≡ out.old.items ++ numbers.now) }
{
    for number in numbers {
        out.push(*number)?;
    }
    Ok(())
}

/// The number of an algorithm, as `RamTst_AlgorithmType` has it.
fn algorithm_number(algorithm: &Algorithm) -> u64
    ensures { result ≡ algorithm_number algorithm.now }
{
    match algorithm {
        Algorithm::Checkerboard => 1,
        Algorithm::March(_) => 2,
        Algorithm::WalkPath => 3,
        Algorithm::Galpat => 4,
        Algorithm::TransparentGalpat => 5,
    }
}

/// 1 if the background of a cell is the word that it held.
fn own_number(algorithm: &Algorithm) -> u64
    ensures { result ≡ bit_of (is_transparent algorithm.now) }
{
    match algorithm {
        Algorithm::TransparentGalpat => 1,
        Algorithm::Checkerboard | Algorithm::March(_) | Algorithm::WalkPath | Algorithm::Galpat =>
            0,
    }
}

fn policy_number(policy: Policy) -> u64
    ensures { result ≡ policy_number policy }
{
    match policy {
        Policy::NonDestructive => 0,
        Policy::Destructive => 1,
    }
}

/// Appends what a table says of a plan: its steps, its cells, and the checksum over both.
pub(crate) fn push_plan_row(
    alloc: Global,
    algorithm: &Algorithm,
    n: u32,
    out: &mut Vec<u64>,
) -> Result<(), AllocError>
    requires accepted { IsAccepted algorithm.now }
    requires some { 1 ≤ n }
    requires small { n ≤ 64 }
    ensures { OnOk result (out.new.items ≡ out.old.items ++ plan_row algorithm.now n) }
{
    let mut plan = Vec::new(alloc);
    push_plan(algorithm, n, &mut plan)?;
    let count = plan.len() as u64;
    plan.push(u64::from(n))?;
    push_all(
        out,
        &[count, u64::from(n), u64::from(checksum(1, plan.as_slice()))],
    )
}

/// Appends the row of a block.
fn push_block(set: &ParamSet, block: &Block, out: &mut Vec<u64>) -> Result<(), AllocError>
    requires some { 1 ≤ set.now.atomic }
    requires small { set.now.atomic ≤ 64 }
    ensures { OnOk result (out.new.items ≡ out.old.items ++ block_row set.now block.now) }
{
    let rest = rest_in(set.atomic, block.span);
    push_all(
        out,
        &[
            u64::from(block.span.first),
            slices_in(set.atomic, block.span),
            place_of(set, rest as u32),
            policy_number(block.policy),
            block.fill,
        ],
    )
}

/// Appends the rows of all blocks of a set.
pub(crate) fn push_blocks(set: &ParamSet, out: &mut Vec<u64>) -> Result<(), AllocError>
    requires some { 1 ≤ set.now.atomic }
    requires small { set.now.atomic ≤ 64 }
    ensures { OnOk result (out.new.items ≡ out.old.items ++ blocks_table set.now) }
{
    for block in set.blocks.as_slice() {
        push_block(set, block, out)?;
    }
    Ok(())
}

/// Appends the fields of a set.
pub(crate) fn push_fields(set: &ParamSet, out: &mut Vec<u64>) -> Result<(), AllocError>
    requires some { 1 ≤ set.now.atomic }
    requires small { set.now.atomic ≤ 64 }
    ensures { OnOk result (out.new.items ≡ out.old.items ++ set_fields set.now) }
{
    push_all(
        out,
        &[
            algorithm_number(&set.alg),
            own_number(&set.alg),
            set.background,
            u64::from(set.atomic),
            u64::from(set.cells),
            u64::from(set.retries),
            place_of(set, set.atomic),
            lengths_of(set).len() as u64,
            set.blocks.as_slice().len() as u64,
        ],
    )
}
