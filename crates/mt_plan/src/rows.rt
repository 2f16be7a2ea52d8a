//! The rows of an algorithm.

ghost use Rattle.std.specs.Prelude.{◌≡◌, ◌≤◌, ◌<◌};
ghost use Rattle.mt_plan.specs.Plan.{IsAccepted};
ghost use Rattle.mt_plan.specs.Lists.{write_act};
ghost use Rattle.mt_plan.specs.Rows.{part_count, row_count, cell_at, quarter_act};
ghost use Rattle.mt_plan.specs.Cursor.{line_of, round_line, IsElementOf};

use crate::algorithm::{Act, Algorithm};
use crate::line::Line;
use crate::rounds::{reading, writing};
use arrayvec::ArrayVec;
use mt_march::{Element, Order};

/// How many parts an algorithm has.
pub fn part_count(algorithm: &Algorithm) -> u32
    requires { IsAccepted algorithm.now }
    ensures count { result ≡ part_count algorithm.now }
    ensures some { 1 ≤ result }
    ensures few { result ≤ 16 }
{
    match algorithm {
        Algorithm::Checkerboard => 4,
        Algorithm::March(march) => march.elements.as_slice().len() as u32,
        Algorithm::WalkPath | Algorithm::Galpat | Algorithm::TransparentGalpat => 2,
    }
}

/// How many rows each part has.
pub fn row_count(algorithm: &Algorithm, n: u32) -> u32
    requires some { 1 ≤ n }
    requires small { n ≤ 64 }
    ensures count { result ≡ row_count algorithm.now n }
    ensures some { 1 ≤ result }
    ensures few { result ≤ 65 }
{
    match algorithm {
        Algorithm::Checkerboard => 1,
        Algorithm::March(_) => n,
        Algorithm::WalkPath | Algorithm::Galpat | Algorithm::TransparentGalpat => n + 1,
    }
}

/// The cell at a place of an element's order.
#[inline(always)]
pub fn cell_of(order: Order, n: u32, place: u32) -> u8
    requires small { n ≤ 64 }
    requires within { place < n }
    ensures cell { result ≡ cell_at order n place }
    ensures inside { result < n }
{
    match order {
        Order::Down => (n - 1 - place) as u8,
        Order::Up | Order::Either => place as u8,
    }
}

/// What a quarter of checkerboard does with an even or an odd cell.
fn quarter_act(quarter: u32, odd: bool) -> Act
    ensures { result ≡ quarter_act quarter odd }
{
    match quarter {
        0 => writing(odd),
        1 => reading(odd),
        2 => writing(!odd),
        _ => reading(!odd),
    }
}

/// The writes of all cells with which a round begins.
fn fill_line(flipped: bool) -> Line
    ensures { result ≡ Line.EachCell (write_act flipped) (write_act flipped) }
{
    let act = writing(flipped);
    Line::EachCell {
        even: act,
        odd: act,
    }
}

/// The line of a row of the walk path.
fn walk_line(flipped: bool, row: u32) -> Line
    ensures { result ≡ round_line flipped (Line.WalkBase flipped) row }
{
    if row == 0 {
        fill_line(flipped)
    } else {
        Line::WalkBase {
            flipped,
            base: row - 1,
        }
    }
}

/// The line of a row of Galpat.
fn galpat_line(flipped: bool, row: u32) -> Line
    ensures { result ≡ round_line flipped (Line.GalpatBase flipped) row }
{
    if row == 0 {
        fill_line(flipped)
    } else {
        Line::GalpatBase {
            flipped,
            base: row - 1,
        }
    }
}

/// The line of a row, where `element` is that of a march's part.
pub fn line_at(algorithm: &Algorithm, n: u32, part: u32, row: u32, element: &Element) -> Line
    requires small { n ≤ 64 }
    requires row { row < row_count algorithm.now n }
    requires element { IsElementOf algorithm.now part element.now }
    ensures line { result ≡ line_of algorithm.now n part row }
{
    match algorithm {
        Algorithm::Checkerboard => Line::EachCell {
            even: quarter_act(part, false),
            odd: quarter_act(part, true),
        },
        Algorithm::March(_) => Line::OnCell {
            cell: cell_of(element.order, n, row),
        },
        Algorithm::WalkPath => walk_line(part == 1, row),
        Algorithm::Galpat | Algorithm::TransparentGalpat => galpat_line(part == 1, row),
    }
}

/// The element of a part of a march, and an empty one for the other algorithms.
pub fn element_at(algorithm: &Algorithm, part: u32) -> Element
    requires accepted { IsAccepted algorithm.now }
    requires part { part < part_count algorithm.now }
    ensures { IsElementOf algorithm.now part result }
{
    match algorithm {
        Algorithm::March(march) => march.elements.as_slice()[part as usize].copy(),
        Algorithm::Checkerboard
        | Algorithm::WalkPath
        | Algorithm::Galpat
        | Algorithm::TransparentGalpat => Element {
            order: Order::Up,
            ops: ArrayVec::new(),
        },
    }
}

/// Makes one element equal to another, where it stands.
fn copy_into(element: &mut Element, from: &Element)
    ensures { element.new ≡ from.now }
{
    element.order = from.order;
    element.ops.clear();
    for op in from.ops.as_slice() {
        element.ops.push(*op);
    }
}

/// Makes an element that of a part of a march; for the other algorithms it stays.
pub fn load_element(element: &mut Element, algorithm: &Algorithm, part: u32)
    requires accepted { IsAccepted algorithm.now }
    requires part { part < part_count algorithm.now }
    ensures { IsElementOf algorithm.now part element.new }
{
    match algorithm {
        Algorithm::March(march) => copy_into(element, &march.elements.as_slice()[part as usize]),
        Algorithm::Checkerboard
        | Algorithm::WalkPath
        | Algorithm::Galpat
        | Algorithm::TransparentGalpat => {}
    }
}
