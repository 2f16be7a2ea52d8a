//! Rules on the values of the top table and of sets, but for a march.

ghost use Rattle.std.specs.Prelude.{◌≡◌, ◌≤◌, ◌||◌, ℕ, ℤ, codes, map, not, pos, length};
ghost use Rattle.std.specs.List.{list_any};
ghost use Rattle.std.specs.Str.{bytes_eq};
ghost use Rattle.toml.specs.View.{view, table_view};
ghost use Rattle.mt_conf.specs.Lookup.{array_at};
ghost use Rattle.mt_conf.specs.Rules.{texts, is_one_of, is_version, wrong_version, width_of, width_at, wrong_width, is_within, wrong_size, no_word, wrong_word_in_set, wrong_word, is_count, wrong_count_in_set, wrong_count_in_fls, wrong_count, is_named, wrong_policy, idle_march, wrong_algorithm_in_set, wrong_algorithm, is_destructive, transparent_destructive_in_set, transparent_destructive, any_block, any_set, in_order, wrong_range, wrong_block_range, span_of, meet, any_meet, overlap_in_set, overlap, wrong_cells, wrong_retries, wrong_cells_in_set, wrong_cells_range};

use crate::lookup::{array_at, count_at, has_key, number_at, text_at};
use crate::shape::{any_table, in_fls};
use mt_hex::word_of;
use mt_word::Width;
use toml::{Table, Value};

pub fn is_version(table: &Table, version: u8) -> bool
    ensures { result ≡ is_version version (table_view table.now) }
{
    number_at(table, "version") == i64::from(version)
}

#[tactic(auto, unfolding(crate::specs::Rules::wrong_version))]
pub fn has_wrong_version(table: &Table) -> bool
    ensures { result ≡ wrong_version (table_view table.now) }
{
    !is_version(table, 1) && !is_version(table, 2)
}

fn width_of(number: i64) -> Option<Width>
    ensures { result ≡ width_of number }
{
    match number {
        8 => Some(Width::W8),
        16 => Some(Width::W16),
        32 => Some(Width::W32),
        64 => Some(Width::W64),
        _ => None,
    }
}

/// The width, which is told where `width` is one.
pub fn width_at(table: &Table) -> Width
    ensures { result ≡ width_at (table_view table.now) }
{
    width_of(number_at(table, "width")).unwrap_or(Width::W8)
}

#[tactic(auto, unfolding(crate::specs::Rules::wrong_width))]
pub fn has_wrong_width(table: &Table) -> bool
    ensures { result ≡ wrong_width (table_view table.now) }
{
    let width = number_at(table, "width");
    width_of(width).is_none() || (is_version(table, 1) && width == 64)
}

/// Whether a number is one from `low` to `high`.
pub fn is_within(low: i64, high: i64, number: i64) -> bool
    ensures { result ≡ is_within low high number }
{
    low <= number && number <= high
}

#[tactic(auto, unfolding(crate::specs::Rules::wrong_size))]
pub fn has_wrong_size(table: &Table) -> bool
    ensures { result ≡ wrong_size (table_view table.now) }
{
    !is_within(1, 65_536, number_at(table, "ram"))
        || !is_within(0, 65_536, number_at(table, "flash"))
}

fn is_no_word(width: Width, key: &str, table: &Table) -> bool
    ensures { result ≡ no_word width key.now (table_view table.now) }
{
    has_key(table, key) && word_of(width, text_at(table, key).as_bytes()).is_none()
}

#[tactic(auto, unfolding(crate::specs::Rules::wrong_word_in_set))]
fn set_has_wrong_word(width: Width, table: &Table) -> bool
    ensures { result ≡ wrong_word_in_set width (table_view table.now) }
{
    is_no_word(width, "background", table)
        || any_table(table, "block", &|block| is_no_word(width, "fill", block))
}

#[tactic(auto, unfolding(crate::specs::Rules::wrong_word))]
pub fn has_wrong_word(table: &Table) -> bool
    ensures { result ≡ wrong_word (table_view table.now) }
{
    let width = width_at(table);
    is_no_word(width, "initial", table)
        || any_table(table, "set", &|set| set_has_wrong_word(width, set))
}

fn is_count(most: usize, number: usize) -> bool
    ensures { result ≡ is_count most number }
{
    1 <= number && number <= most
}

#[tactic(auto, unfolding(crate::specs::Rules::wrong_count_in_set))]
fn set_has_wrong_count(table: &Table) -> bool
    ensures { result ≡ wrong_count_in_set (table_view table.now) }
{
    !is_count(64, count_at(table, "block"))
}

#[tactic(auto, unfolding(crate::specs::Rules::wrong_count_in_fls))]
fn fls_has_wrong_count(table: &Table) -> bool
    ensures { result ≡ wrong_count_in_fls (table_view table.now) }
{
    64 < count_at(table, "bgnd") || 64 < count_at(table, "fgnd")
}

fn ram_part_has_wrong_count(table: &Table) -> bool
    ensures { result
        ≡ (not (is_count 16 (length (array_at (codes "set") (table_view table.now))))
        || any_set wrong_count_in_set (table_view table.now)) }
{
    !is_count(16, count_at(table, "set")) || any_table(table, "set", &set_has_wrong_count)
}

#[tactic(auto, unfolding(crate::specs::Rules::wrong_count))]
pub fn has_wrong_count(table: &Table) -> bool
    ensures { result ≡ wrong_count (table_view table.now) }
{
    ram_part_has_wrong_count(table) || in_fls(table, &fls_has_wrong_count)
}

/// Whether a name is one of these.
fn is_one_of(names: &[&str], key: &str) -> bool
    ensures { result ≡ is_one_of (texts names.now) key.now }
{
    match names {
        [] => false,
        [name, rest @ ..] => *name == key || is_one_of(rest, key),
    }
}

/// Whether the text at a key is this name.
pub fn is_named(table: &Table, key: &str, name: &str) -> bool
    ensures { result ≡ is_named key.now name.now (table_view table.now) }
{
    name == text_at(table, key)
}

#[tactic(auto, unfolding(crate::specs::Rules::wrong_policy))]
fn block_has_wrong_policy(table: &Table) -> bool
    ensures { result ≡ wrong_policy (table_view table.now) }
{
    !is_one_of(
        &["non-destructive", "destructive"],
        text_at(table, "policy"),
    )
}

#[tactic(auto, unfolding(crate::specs::Rules::idle_march))]
fn set_has_idle_march(table: &Table) -> bool
    ensures { result ≡ idle_march (table_view table.now) }
{
    has_key(table, "march") && !is_named(table, "algorithm", "march")
}

#[tactic(auto, unfolding(crate::specs::Rules::wrong_algorithm_in_set))]
fn set_has_wrong_algorithm(table: &Table) -> bool
    ensures { result ≡ wrong_algorithm_in_set (table_view table.now) }
{
    !is_one_of(
        &[
            "checkerboard",
            "march",
            "walk-path",
            "galpat",
            "transparent-galpat",
        ],
        text_at(table, "algorithm"),
    ) || set_has_idle_march(table)
        || any_table(table, "block", &block_has_wrong_policy)
}

#[tactic(auto, unfolding(crate::specs::Rules::wrong_algorithm))]
pub fn has_wrong_algorithm(table: &Table) -> bool
    ensures { result ≡ wrong_algorithm (table_view table.now) }
{
    any_table(table, "set", &set_has_wrong_algorithm)
}

#[tactic(auto, unfolding(crate::specs::Rules::is_destructive))]
fn block_is_destructive(table: &Table) -> bool
    ensures { result ≡ is_destructive (table_view table.now) }
{
    is_named(table, "policy", "destructive")
}

#[tactic(auto, unfolding(crate::specs::Rules::transparent_destructive_in_set))]
fn set_is_transparent_destructive(table: &Table) -> bool
    ensures { result ≡ transparent_destructive_in_set (table_view table.now) }
{
    is_named(table, "algorithm", "transparent-galpat")
        && any_table(table, "block", &block_is_destructive)
}

#[tactic(auto, unfolding(crate::specs::Rules::transparent_destructive))]
pub fn is_transparent_destructive(table: &Table) -> bool
    ensures { result ≡ transparent_destructive (table_view table.now) }
{
    any_table(table, "set", &set_is_transparent_destructive)
}

/// Whether the first and the last word of a block are in order, and below the limit.
pub fn is_in_order(limit: i64, table: &Table) -> bool
    ensures { result ≡ in_order limit (table_view table.now) }
{
    let first = number_at(table, "first");
    let last = number_at(table, "last");
    0 <= first && first <= last && last < limit
}

#[tactic(auto, unfolding(crate::specs::Rules::wrong_range))]
fn block_has_wrong_range(ram: i64, table: &Table) -> bool
    ensures { result ≡ wrong_range ram (table_view table.now) }
{
    !is_in_order(ram, table)
}

fn set_has_wrong_range(ram: i64, table: &Table) -> bool
    ensures { result ≡ any_block (wrong_range ram) (table_view table.now) }
{
    any_table(table, "block", &|block| block_has_wrong_range(ram, block))
}

#[tactic(auto, unfolding(crate::specs::Rules::wrong_block_range))]
pub fn has_wrong_block_range(table: &Table) -> bool
    ensures { result ≡ wrong_block_range (table_view table.now) }
{
    let ram = number_at(table, "ram");
    any_table(table, "set", &|set| set_has_wrong_range(ram, set))
}

fn span_of(value: &Value) -> (i64, i64)
    ensures { result ≡ span_of (view value.now) }
{
    match value.as_table() {
        Some(table) => (number_at(table, "first"), number_at(table, "last")),
        None => (0, 0),
    }
}

fn meet(a: (i64, i64), b: (i64, i64)) -> bool
    ensures { result ≡ meet a b }
{
    a.0 <= b.1 && b.0 <= a.1
}

fn meets_any(span: (i64, i64), values: &[Value]) -> bool
    ensures { result ≡ list_any (λ v. meet span (span_of (view v))) values.now }
{
    values.iter().any(|value| meet(span, span_of(value)))
}

fn any_meet(values: &[Value]) -> bool
    ensures { result ≡ any_meet (map span_of (map view values.now)) }
{
    for (i, value) in values.iter().enumerate() {
        let (_, later) = values.split_at(i + 1);
        if meets_any(span_of(value), later) {
            return true;
        }
    }
    false
}

#[tactic(auto, unfolding(crate::specs::Rules::overlap_in_set))]
fn set_has_overlap(table: &Table) -> bool
    ensures { result ≡ overlap_in_set (table_view table.now) }
{
    any_meet(array_at(table, "block"))
}

#[tactic(auto, unfolding(crate::specs::Rules::overlap))]
pub fn has_overlap(table: &Table) -> bool
    ensures { result ≡ overlap (table_view table.now) }
{
    any_table(table, "set", &set_has_overlap)
}

/// Whether `atomic` or `cells` is out of range.
#[tactic(auto, unfolding(crate::specs::Rules::wrong_cells))]
pub fn has_wrong_cells(table: &Table) -> bool
    ensures { result ≡ wrong_cells (table_view table.now) }
{
    let atomic = number_at(table, "atomic");
    !(is_within(1, 64, atomic) && is_within(atomic, 65_536, number_at(table, "cells")))
}

/// Whether `retries` is out of range, or is there in the first version.
#[tactic(auto, unfolding(crate::specs::Rules::wrong_retries))]
fn has_wrong_retries(first: bool, table: &Table) -> bool
    ensures { result ≡ wrong_retries first (table_view table.now) }
{
    has_key(table, "retries") && (first || !is_within(0, 16, number_at(table, "retries")))
}

#[tactic(auto, unfolding(crate::specs::Rules::wrong_cells_in_set))]
fn set_has_wrong_cells(first: bool, table: &Table) -> bool
    ensures { result ≡ wrong_cells_in_set first (table_view table.now) }
{
    has_wrong_cells(table) || has_wrong_retries(first, table)
}

#[tactic(auto, unfolding(crate::specs::Rules::wrong_cells_range))]
pub fn has_wrong_cells_range(table: &Table) -> bool
    ensures { result ≡ wrong_cells_range (table_view table.now) }
{
    let first = is_version(table, 1);
    any_table(table, "set", &|set| set_has_wrong_cells(first, set))
}
