//! Rules on the flash configuration.

ghost use Rattle.std.specs.Prelude.{◌≡◌, ◌+ℤ◌, ◌-ℤ◌, ◌&&◌, codes, pos, int_le, int_lt};
ghost use Rattle.toml.specs.View.{table_view};
ghost use Rattle.mt_conf.specs.Lookup.{number_at};
ghost use Rattle.mt_conf.specs.Rules.{copy_last, wrong_flash_block, wrong_fls, wrong_flash_range, meets_copy, copy_overlap_in_fls, copy_overlap};

use crate::lookup::number_at;
use crate::shape::{any_flash_block, in_fls};
use crate::values::{has_wrong_cells, is_in_order, is_within};
use toml::Table;

/// The last address of the copy of a block, which a number of twice the bits always holds.
fn last_of_copy(copy: i64, first: i64, last: i64) -> i128
    ensures { result ≡ copy +ℤ last -ℤ first }
{
    i128::from(copy) + i128::from(last) - i128::from(first)
}

fn copy_last(table: &Table) -> i128
    ensures { result ≡ copy_last (table_view table.now) }
{
    last_of_copy(
        number_at(table, "copy"),
        number_at(table, "first"),
        number_at(table, "last"),
    )
}

fn is_copy_within(flash: i64, table: &Table) -> bool
    ensures { result
        ≡ (int_le (pos 0) (number_at (codes "copy") (table_view table.now))
        && int_lt (copy_last (table_view table.now)) flash) }
{
    0 <= number_at(table, "copy") && copy_last(table) < i128::from(flash)
}

#[tactic(auto, unfolding(crate::specs::Rules::wrong_flash_block))]
fn block_has_wrong_flash_range(flash: i64, table: &Table) -> bool
    ensures { result ≡ wrong_flash_block flash (table_view table.now) }
{
    !(is_in_order(flash, table) && is_copy_within(flash, table))
}

#[tactic(auto, unfolding(crate::specs::Rules::wrong_fls))]
fn fls_has_wrong_range(flash: i64, table: &Table) -> bool
    ensures { result ≡ wrong_fls flash (table_view table.now) }
{
    has_wrong_cells(table)
        || !is_within(0, 65_535, number_at(table, "interval_end"))
        || any_flash_block(table, &|block| block_has_wrong_flash_range(flash, block))
}

#[tactic(auto, unfolding(crate::specs::Rules::wrong_flash_range))]
pub fn has_wrong_flash_range(table: &Table) -> bool
    ensures { result ≡ wrong_flash_range (table_view table.now) }
{
    let flash = number_at(table, "flash");
    in_fls(table, &|fls| fls_has_wrong_range(flash, fls))
}

#[tactic(auto, unfolding(crate::specs::Rules::meets_copy))]
fn block_meets_copy(table: &Table) -> bool
    ensures { result ≡ meets_copy (table_view table.now) }
{
    i128::from(number_at(table, "first")) <= copy_last(table)
        && number_at(table, "copy") <= number_at(table, "last")
}

#[tactic(auto, unfolding(crate::specs::Rules::copy_overlap_in_fls))]
fn fls_has_copy_overlap(table: &Table) -> bool
    ensures { result ≡ copy_overlap_in_fls (table_view table.now) }
{
    any_flash_block(table, &block_meets_copy)
}

#[tactic(auto, unfolding(crate::specs::Rules::copy_overlap))]
pub fn has_copy_overlap(table: &Table) -> bool
    ensures { result ≡ copy_overlap (table_view table.now) }
{
    in_fls(table, &fls_has_copy_overlap)
}
