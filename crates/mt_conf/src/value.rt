//! The configuration that a table without a broken rule is.

ghost use Rattle.std.specs.Prelude.{◌≡◌, ◌≤◌, ◌<◌, ℕ, true, codes, length, map, if◌then◌else◌, IfOk};
ghost use Rattle.toml.specs.View.{view, table_view};
ghost use Rattle.mt_conf.specs.Lookup.{array_at, number_at, text_at, fields};
ghost use Rattle.mt_plan.specs.declared.algorithm.Algorithm.TheVariants.{March as Marches};
ghost use Rattle.mt_plan.specs.declared.algorithm.Policy.TheVariants.{NonDestructive, Destructive};
ghost use Rattle.mt_conf.specs.Rules.{is_named};
ghost use Rattle.mt_conf.specs.Outcome.{small, number_in, flash_block_of, word_or_zero, block_of, march_with, march_at, algorithm_at, set_of, fls_of, no_fls, fls_at, shape_of, version_at, config_of};

use crate::config::Config;
use crate::lookup::{array_at, at, has_key, number_at, text_at};
use crate::march::march_of;
use crate::schema::{Part, default_number, otherwise_of};
use crate::values::{is_named, is_version, width_at};
use mt_blocks::{Block, FlashBlock, FlsConfig, List, ParamSet, RamConfig, Span};
use mt_hex::word_of;
use mt_march::{March, march_c_minus};
use mt_plan::{Algorithm, Policy};
use mt_port::Shape;
use mt_word::Width;
use std::alloc::{AllocError, Global};
use toml::{Table, Value};

fn small(number: i64) -> u32
    ensures { result ≡ small number }
{
    if 0 <= number && number < 4_294_967_296 {
        number as u32
    } else {
        0
    }
}

/// The number at a key, which is told where it fits.
fn small_at(table: &Table, key: &str) -> u32
    ensures { result ≡ small (number_at key.now (table_view table.now)) }
{
    small(number_at(table, key))
}

/// The number at a key, and the default of its row where the table leaves it out.
fn number_in(part: Part, table: &Table, key: &str) -> u32
    ensures { result ≡ number_in part key.now (table_view table.now) }
{
    if has_key(table, key) {
        small_at(table, key)
    } else {
        default_number(otherwise_of(part, key))
    }
}

/// The word at a key, and all bits 0 where there is none.
fn word_at(width: Width, table: &Table, key: &str) -> u64
    ensures { result ≡ word_or_zero width (text_at key.now (table_view table.now)) }
{
    word_of(width, text_at(table, key).as_bytes()).unwrap_or(0)
}

#[tactic(auto, unfolding(crate::specs::Outcome::block_of))]
fn block_in(width: Width, table: &Table) -> Block
    ensures { result ≡ block_of width (table_view table.now) }
{
    Block {
        span: Span {
            first: small_at(table, "first"),
            last: small_at(table, "last"),
        },
        policy: policy_in(table),
        fill: word_at(width, table, "fill"),
    }
}

fn policy_in(table: &Table) -> Policy
    ensures { result
        ≡ (if is_named (codes "policy") (codes "destructive") (table_view table.now)
        then Destructive else NonDestructive) }
{
    if is_named(table, "policy", "destructive") {
        Policy::Destructive
    } else {
        Policy::NonDestructive
    }
}

/// The block that a value is; a value that is no table has no entries.
fn block_of(alloc: Global, width: Width, value: &Value) -> Block
    ensures { result ≡ block_of width (fields (view value.now)) }
{
    match value.as_table() {
        Some(table) => block_in(width, table),
        None => block_in(width, &Table::new(alloc)),
    }
}

fn blocks_of(alloc: Global, width: Width, values: &[Value]) -> Result<Vec<Block>, AllocError>
    ensures { IfOk result (λ v. v.items ≡ map (λ b. block_of width (fields (view b))) values.now) }
{
    let mut blocks = Vec::new(alloc);
    for value in values {
        blocks.push(block_of(alloc, width, value))?;
    }
    Ok(blocks)
}

fn blocks_in(alloc: Global, width: Width, table: &Table) -> Result<Vec<Block>, AllocError>
    ensures { IfOk result
        (λ v. v.items ≡ map (λ d. block_of width (fields d)) (array_at (codes "block") (table_view table.now))) }
{
    blocks_of(alloc, width, array_at(table, "block"))
}

/// The march of a set, and March C- where none is written.
#[tactic(auto, unfolding(crate::specs::Outcome::march_at))]
fn march_in(table: &Table) -> Result<March, AllocError>
    ensures { IfOk result (λ march. march ≡ march_at (table_view table.now)) }
{
    if has_key(table, "march") {
        march_of(text_at(table, "march"))
    } else {
        Ok(march_c_minus())
    }
}

fn marching_in(table: &Table) -> Result<Algorithm, AllocError>
    ensures { IfOk result (λ alg. alg ≡ Marches (march_at (table_view table.now))) }
{
    let march = march_in(table)?;
    Ok(Algorithm::March(march))
}

#[tactic(auto, unfolding(crate::specs::Outcome::algorithm_at))]
fn algorithm_in(table: &Table) -> Result<Algorithm, AllocError>
    ensures { IfOk result (λ alg. alg ≡ algorithm_at (table_view table.now)) }
{
    if is_named(table, "algorithm", "checkerboard") {
        Ok(Algorithm::Checkerboard)
    } else if is_named(table, "algorithm", "march") {
        marching_in(table)
    } else if is_named(table, "algorithm", "walk-path") {
        Ok(Algorithm::WalkPath)
    } else if is_named(table, "algorithm", "galpat") {
        Ok(Algorithm::Galpat)
    } else {
        Ok(Algorithm::TransparentGalpat)
    }
}

#[tactic(auto, unfolding(crate::specs::Outcome::set_of))]
fn set_in(alloc: Global, width: Width, table: &Table) -> Result<ParamSet, AllocError>
    ensures { IfOk result (λ s. s ≡ set_of width (table_view table.now)) }
{
    let alg = algorithm_in(table)?;
    let blocks = blocks_in(alloc, width, table)?;
    Ok(ParamSet {
        alg,
        background: word_at(width, table, "background"),
        atomic: small_at(table, "atomic"),
        cells: small_at(table, "cells"),
        blocks: List::new(blocks),
        retries: number_in(Part::Set, table, "retries"),
    })
}

fn set_of(alloc: Global, width: Width, value: &Value) -> Result<ParamSet, AllocError>
    ensures { IfOk result (λ s. s ≡ set_of width (fields (view value.now))) }
{
    match value.as_table() {
        Some(table) => set_in(alloc, width, table),
        None => set_in(alloc, width, &Table::new(alloc)),
    }
}

fn sets_of(alloc: Global, width: Width, values: &[Value]) -> Result<Vec<ParamSet>, AllocError>
    ensures { IfOk result (λ v. v.items ≡ map (λ s. set_of width (fields (view s))) values.now) }
{
    let mut sets = Vec::new(alloc);
    for value in values {
        sets.push(set_of(alloc, width, value)?)?;
    }
    Ok(sets)
}

fn sets_in(alloc: Global, width: Width, table: &Table) -> Result<Vec<ParamSet>, AllocError>
    ensures { IfOk result
        (λ v. v.items ≡ map (λ d. set_of width (fields d)) (array_at (codes "set") (table_view table.now))) }
{
    sets_of(alloc, width, array_at(table, "set"))
}

/// A block of flash words by its entries.
#[tactic(auto, unfolding(crate::specs::Outcome::flash_block_of))]
fn flash_block_in(table: &Table) -> FlashBlock
    ensures { result ≡ flash_block_of (table_view table.now) }
{
    FlashBlock {
        span: Span {
            first: small_at(table, "first"),
            last: small_at(table, "last"),
        },
        copy: small_at(table, "copy"),
    }
}

fn flash_block_of(alloc: Global, value: &Value) -> FlashBlock
    ensures { result ≡ flash_block_of (fields (view value.now)) }
{
    match value.as_table() {
        Some(table) => flash_block_in(table),
        None => flash_block_in(&Table::new(alloc)),
    }
}

fn flash_blocks_of(alloc: Global, values: &[Value]) -> Result<Vec<FlashBlock>, AllocError>
    ensures { IfOk result (λ v. v.items ≡ map (λ b. flash_block_of (fields (view b))) values.now) }
{
    let mut blocks = Vec::new(alloc);
    for value in values {
        blocks.push(flash_block_of(alloc, value))?;
    }
    Ok(blocks)
}

fn flash_blocks_in(alloc: Global, table: &Table, key: &str) -> Result<Vec<FlashBlock>, AllocError>
    ensures { IfOk result
        (λ v. v.items ≡ map (λ d. flash_block_of (fields d)) (array_at key.now (table_view table.now))) }
{
    flash_blocks_of(alloc, array_at(table, key))
}

#[tactic(auto, unfolding(crate::specs::Outcome::fls_of))]
fn fls_in(alloc: Global, table: &Table) -> Result<FlsConfig, AllocError>
    ensures { IfOk result (λ f. f ≡ fls_of (table_view table.now)) }
{
    let bgnd = flash_blocks_in(alloc, table, "bgnd")?;
    let fgnd = flash_blocks_in(alloc, table, "fgnd")?;
    Ok(FlsConfig {
        atomic: small_at(table, "atomic"),
        cells: small_at(table, "cells"),
        interval_end: small_at(table, "interval_end"),
        bgnd: List::new(bgnd),
        fgnd: List::new(fgnd),
    })
}

fn fls_of(alloc: Global, value: &Value) -> Result<FlsConfig, AllocError>
    ensures { IfOk result (λ f. f ≡ fls_of (fields (view value.now))) }
{
    match value.as_table() {
        Some(table) => fls_in(alloc, table),
        None => fls_in(alloc, &Table::new(alloc)),
    }
}

/// What stands where `fls` is left out.
fn no_fls(alloc: Global) -> FlsConfig
    ensures { result ≡ no_fls }
{
    FlsConfig {
        atomic: 1,
        cells: 1,
        interval_end: 0,
        bgnd: List::new(Vec::new(alloc)),
        fgnd: List::new(Vec::new(alloc)),
    }
}

#[tactic(auto, unfolding(crate::specs::Outcome::fls_at))]
fn fls_at(alloc: Global, table: &Table) -> Result<FlsConfig, AllocError>
    ensures { IfOk result (λ f. f ≡ fls_at (table_view table.now)) }
{
    match at(table, "fls") {
        Some(value) => fls_of(alloc, value),
        None => Ok(no_fls(alloc)),
    }
}

#[tactic(auto, unfolding(crate::specs::Outcome::shape_of))]
fn shape_of(table: &Table) -> Shape
    ensures { result ≡ shape_of (table_view table.now) }
{
    Shape {
        width: width_at(table),
        ram: small_at(table, "ram"),
        flash: number_in(Part::Top, table, "flash"),
    }
}

fn version_at(table: &Table) -> u8
    ensures { result ≡ version_at (table_view table.now) }
{
    if is_version(table, 1) { 1 } else { 2 }
}

/// The configuration of a table that breaks no rule. Of another table it may be none.
#[tactic(auto, unfolding(crate::specs::Outcome::config_of))]
pub fn config_of(alloc: Global, table: &Table) -> Result<Config, AllocError>
    ensures { IfOk result (λ c. c ≡ config_of (table_view table.now)) }
{
    let width = width_at(table);
    let sets = sets_in(alloc, width, table)?;
    let fls_tst = fls_at(alloc, table)?;
    Ok(Config {
        version: version_at(table),
        shape: shape_of(table),
        initial: word_at(width, table, "initial"),
        ram_tst: RamConfig {
            sets: List::new(sets),
        },
        fls_tst,
    })
}
