//! The steps of one row.

ghost use Rattle.std.specs.Prelude.{◌≡◌, ◌≤◌, ◌<◌, length, slice_get, Some};
ghost use Rattle.mt_plan.specs.Lists.{act_of};
ghost use Rattle.mt_plan.specs.Cursor.{is_on_cell, line_steps, IsLineOn};

use crate::algorithm::{Act, Step};
use crate::rounds::{galpat_base_step, walk_base_step};
use mt_march::{Element, Op};

/// What a row of steps needs, beside the element of a march and the number of cells.
#[derive(Clone, Copy, Debug, PartialEq, Eq)]
pub enum Line {
    /// Each cell once, from cell 0 up: an act on even cells, and one on odd cells.
    EachCell { even: Act, odd: Act },
    /// All operations of the element on one cell.
    OnCell { cell: u8 },
    /// The walk path at a base.
    WalkBase { flipped: bool, base: u32 },
    /// Galpat at a base.
    GalpatBase { flipped: bool, base: u32 },
}

/// What an operation does: 0 is the background word, and 1 its complement.
#[inline(always)]
pub fn act_of(op: Op) -> Act
    ensures { result ≡ act_of op }
{
    match op {
        Op::R0 => Act::ReadPlain,
        Op::R1 => Act::ReadFlipped,
        Op::W0 => Act::WritePlain,
        Op::W1 => Act::WriteFlipped,
    }
}

impl Line {
    /// Whether the line is one of an element's.
    #[inline(always)]
    pub(crate) fn is_on_cell(self) -> bool
        ensures { result ≡ is_on_cell self }
    {
        match self {
            Line::OnCell { .. } => true,
            Line::EachCell { .. } | Line::WalkBase { .. } | Line::GalpatBase { .. } => false,
        }
    }

    /// How many steps the line has.
    pub fn len(self, element: &Element, n: u32) -> u32
        requires small { n ≤ 64 }
        requires on { IsLineOn n self }
        ensures len { result ≡ length (line_steps element.now n self) }
        ensures few { result ≤ 129 }
    {
        match self {
            Line::EachCell { .. } => n,
            Line::OnCell { .. } => element.ops.as_slice().len() as u32,
            Line::WalkBase { .. } => n + 2,
            Line::GalpatBase { .. } => 2 * n + 1,
        }
    }

    /// The step with a number.
    #[inline(always)]
    pub fn step(self, element: &Element, n: u32, at: u32) -> Step
        requires small { n ≤ 64 }
        requires on { IsLineOn n self }
        requires at { at < length (line_steps element.now n self) }
        ensures step { slice_get (line_steps element.now n self) at ≡ Some result }
        ensures inside { result.cell < n }
    {
        match self {
            Line::EachCell { even, odd } => Step {
                cell: at as u8,
                act: if at % 2 == 1 { odd } else { even },
            },
            Line::OnCell { cell } => Step {
                cell,
                act: act_of(element.ops.as_slice()[at as usize]),
            },
            Line::WalkBase { flipped, base } => walk_base_step(flipped, n, base, at),
            Line::GalpatBase { flipped, base } => galpat_base_step(flipped, n, base, at),
        }
    }
}
