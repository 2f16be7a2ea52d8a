//! The parts of an attempt at a slice: saving, the algorithm's elements, and restoring or filling.

use crate::chart::{Chart, Titled};
use crate::deed_text::Text;
use arrayvec::ArrayVec;
use mt_blocks::ParamSet;
use mt_hex::push_bytes;
use mt_march::{Element, March, Op, Order};
use mt_plan::{Algorithm, Policy};
use std::alloc::AllocError;

/// The most bytes of a part's name.
const MOST_NAME: usize = 100;

// A name, or the front of a long one.
fn name_text(name: &[u8]) -> Text {
    let mut text = ArrayVec::new();
    push_bytes(&mut text, &name[..name.len().min(MOST_NAME)]);
    text
}

fn op_name(op: Op) -> &'static [u8] {
    match op {
        Op::R0 => b"r0",
        Op::R1 => b"r1",
        Op::W0 => b"w0",
        Op::W1 => b"w1",
    }
}

// The text of a march element. There is room for its 8 operations.
fn element_text(element: &Element) -> Text {
    let mut text = ArrayVec::new();
    let order: &[u8] = match element.order {
        Order::Up => b"u",
        Order::Down => b"d",
        Order::Either => b"*",
    };
    let _ = text.try_extend_from_slice(order);
    for (index, op) in element.ops.iter().enumerate() {
        let _ = text.try_extend_from_slice(if index == 0 { b"(" } else { b"," });
        let _ = text.try_extend_from_slice(op_name(*op));
    }
    let _ = text.try_extend_from_slice(b")");
    text
}

fn algorithm_name(algorithm: &Algorithm) -> &'static [u8] {
    match algorithm {
        Algorithm::Checkerboard => b"checkerboard",
        Algorithm::March(_) => b"march",
        Algorithm::WalkPath => b"walk path",
        Algorithm::Galpat => b"Galpat",
        Algorithm::TransparentGalpat => b"transparent Galpat",
    }
}

/// The attempt that a hold is for: how many accesses came before it, and up to its end, and how many words it has.
#[derive(Clone, Copy, Debug)]
pub struct Attempt {
    pub from: u32,
    pub to: u32,
    pub words: u32,
}

// Adds a part that is so long, or what the attempt has of it, and answers where the next one begins.
fn add(
    chart: &mut Chart,
    attempt: Attempt,
    from: u32,
    length: u32,
    name: &[u8],
) -> Result<u32, AllocError> {
    let to = from.saturating_add(length).min(attempt.to);
    if from < to {
        let title = name_text(name);
        chart.add_part(Titled { from, to, title })?;
    }
    Ok(to)
}

// Adds the elements of a march, from a count on, and answers where they end.
fn add_elements(
    chart: &mut Chart,
    attempt: Attempt,
    march: &March,
    from: u32,
) -> Result<u32, AllocError> {
    let mut at = from;
    for element in march.elements.as_slice() {
        let length = attempt.words.saturating_mul(element.ops.len() as u32);
        at = add(chart, attempt, at, length, &element_text(element))?;
    }
    Ok(at)
}

// Adds the algorithm's part, up to the accesses that restore or fill the words, and answers where it ends.
fn add_algorithm(
    chart: &mut Chart,
    attempt: Attempt,
    algorithm: &Algorithm,
    from: u32,
) -> Result<u32, AllocError> {
    let end = attempt.to.saturating_sub(attempt.words);
    match algorithm {
        Algorithm::March(march) => {
            let inner = Attempt { to: end, ..attempt };
            add_elements(chart, inner, march, from)
        }
        _ => add(
            chart,
            attempt,
            from,
            end.saturating_sub(from),
            algorithm_name(algorithm),
        ),
    }
}

/// Adds the parts of an attempt at a slice of a set's block. The last accesses, as many as the slice has words, restore or
/// fill them; an attempt that an urgent request ends before the algorithm's first access has none such.
pub fn add_parts(
    chart: &mut Chart,
    attempt: Attempt,
    set: &ParamSet,
    policy: Policy,
) -> Result<(), AllocError> {
    let begun = match policy {
        Policy::NonDestructive => add(chart, attempt, attempt.from, attempt.words, b"save")?,
        Policy::Destructive => attempt.from,
    };
    let at = add_algorithm(chart, attempt, &set.alg, begun)?;
    let name: &[u8] = match policy {
        Policy::NonDestructive => b"restore",
        Policy::Destructive => b"fill",
    };
    add(chart, attempt, at, attempt.words, name)?;
    Ok(())
}
