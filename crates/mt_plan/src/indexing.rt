//! The place of an index.

ghost use Rattle.std.specs.Prelude.{◌≡◌, ◌≤◌, ◌<◌, ◌*◌, ◌+◌, ◌-◌, length, slice_get, Some};
ghost use Rattle.mt_march.specs.Accepted.{IsAcceptedMarch, operations};
ghost use Rattle.mt_plan.specs.Plan.{IsAccepted, steps_of};
ghost use Rattle.mt_plan.specs.Cursor.{IsPlace, index_of};

use crate::algorithm::{Algorithm, Step};
use crate::place::Place;
use crate::rows::{element_at, line_at};
use mt_march::March;

/// The place of an index in checkerboard.
fn checkerboard_place(n: u32, i: u32) -> Place
    requires some { 1 ≤ n }
    requires within { i < 4 * n }
    ensures place { IsPlace Algorithm.Checkerboard n result }
    ensures index { index_of Algorithm.Checkerboard n result ≡ i }
{
    Place {
        part: i / n,
        row: 0,
        at: i % n,
    }
}

/// The place of an index in a march.
fn march_place(march: &March, n: u32, i: u32) -> Place
    requires accepted { IsAcceptedMarch march.now.elements.items }
    requires some { 1 ≤ n }
    requires small { n ≤ 64 }
    requires within { i < length (operations march.now.elements.items) * n }
    ensures place { IsPlace (Algorithm.March march.now) n result }
    ensures index { index_of (Algorithm.March march.now) n result ≡ i }
{
    let mut left = i;
    for (part, element) in march.elements.as_slice().iter().enumerate() {
        let ops = element.ops.as_slice().len() as u32;
        if left < n * ops {
            return Place {
                part: part as u32,
                row: left / ops,
                at: left % ops,
            };
        }
        left -= n * ops;
    }
    unreachable!()
}

/// The place of an index in rounds of n writes and n bases of so many steps.
fn round_place(n: u32, base_len: u32, i: u32) -> Place
    requires some { 1 ≤ n }
    requires small { n ≤ 64 }
    requires long { 1 ≤ base_len }
    requires few { base_len ≤ 129 }
    requires within { i < 2 * (n + n * base_len) }
    ensures part { result.part < 2 }
    ensures row { result.row < n + 1 }
    ensures first { result.row ≡ 0 → (result.at < n) × (result.part * (n + n * base_len) + result.at ≡ i) }
    ensures later { 1 ≤ result.row
        → (result.at < base_len)
        × (result.part * (n + n * base_len) + (n + (result.row - 1) * base_len) + result.at ≡ i) }
{
    let round = n + n * base_len;
    let part = i / round;
    let rest = i % round;
    if rest < n {
        return Place {
            part,
            row: 0,
            at: rest,
        };
    }
    let past = rest - n;
    Place {
        part,
        row: 1 + past / base_len,
        at: past % base_len,
    }
}

/// The place of an index.
fn place_of(algorithm: &Algorithm, n: u32, i: u32) -> Place
    requires accepted { IsAccepted algorithm.now }
    requires some { 1 ≤ n }
    requires small { n ≤ 64 }
    requires within { i < length (steps_of algorithm.now n) }
    ensures place { IsPlace algorithm.now n result }
    ensures index { index_of algorithm.now n result ≡ i }
{
    match algorithm {
        Algorithm::Checkerboard => checkerboard_place(n, i),
        Algorithm::March(march) => march_place(march, n, i),
        Algorithm::WalkPath => round_place(n, n + 2, i),
        Algorithm::Galpat | Algorithm::TransparentGalpat => round_place(n, 2 * n + 1, i),
    }
}

/// The access with index `i` of an algorithm on n cells, counted from 0.
pub fn step_at(algorithm: &Algorithm, n: u32, i: u32) -> Step
    requires accepted { IsAccepted algorithm.now }
    requires some { 1 ≤ n }
    requires small { n ≤ 64 }
    requires within { i < length (steps_of algorithm.now n) }
    ensures step { slice_get (steps_of algorithm.now n) i ≡ Some result }
    ensures inside { result.cell < n }
{
    let Place { part, row, at } = place_of(algorithm, n, i);
    let element = element_at(algorithm, part);
    line_at(algorithm, n, part, row, &element).step(&element, n, at)
}
