//! The steps at a base of the walk path and of Galpat.

ghost use Rattle.std.specs.Prelude.{◌≡◌, ◌≤◌, ◌<◌, ◌*◌, ◌+◌, slice_get, Some};
ghost use Rattle.mt_plan.specs.Lists.{cells, read_act, write_act, walk_base, galpat_base};

use crate::algorithm::{Act, Step};

/// A write of the background word, or of its complement.
#[inline(always)]
pub fn writing(flipped: bool) -> Act
    ensures { result ≡ write_act flipped }
{
    if flipped {
        Act::WriteFlipped
    } else {
        Act::WritePlain
    }
}

/// A read that expects the background word, or its complement.
#[inline(always)]
pub fn reading(flipped: bool) -> Act
    ensures { result ≡ read_act flipped }
{
    if flipped {
        Act::ReadFlipped
    } else {
        Act::ReadPlain
    }
}

/// The cell with an index among those other than the base.
#[inline(always)]
fn other_cell(base: u32, index: u32) -> u8
    requires { index < 64 }
    ensures before { index < base → result ≡ index }
    ensures after { base ≤ index → result ≡ index + 1 }
{
    if index < base {
        index as u8
    } else {
        index as u8 + 1
    }
}

/// A step of the walk path at a base.
#[inline(always)]
pub fn walk_base_step(flipped: bool, n: u32, base: u32, at: u32) -> Step
    requires small { n ≤ 64 }
    requires base { base < n }
    requires at { at < n + 2 }
    ensures step { slice_get (walk_base flipped (cells n) base) at ≡ Some result }
    ensures inside { result.cell < n }
{
    let own = base as u8;
    if at == 0 {
        Step {
            cell: own,
            act: writing(!flipped),
        }
    } else if at < n {
        Step {
            cell: other_cell(base, at - 1),
            act: reading(flipped),
        }
    } else if at == n {
        Step {
            cell: own,
            act: reading(!flipped),
        }
    } else {
        Step {
            cell: own,
            act: writing(flipped),
        }
    }
}

/// A step of Galpat at a base.
#[inline(always)]
pub fn galpat_base_step(flipped: bool, n: u32, base: u32, at: u32) -> Step
    requires small { n ≤ 64 }
    requires base { base < n }
    requires at { at < 2 * n + 1 }
    ensures step { slice_get (galpat_base flipped (cells n) base) at ≡ Some result }
    ensures inside { result.cell < n }
{
    let own = base as u8;
    if at == 0 {
        Step {
            cell: own,
            act: writing(!flipped),
        }
    } else if at == 2 * n {
        Step {
            cell: own,
            act: writing(flipped),
        }
    } else if at % 2 == 1 {
        Step {
            cell: own,
            act: reading(!flipped),
        }
    } else {
        Step {
            cell: other_cell(base, at / 2 - 1),
            act: reading(flipped),
        }
    }
}
