//! Plans: the steps of an algorithm in bytes.

ghost use Rattle.std.specs.Prelude.{◌≡◌, ◌≤◌, ◌<◌, ◌++◌, OnOk};
ghost use Rattle.mt_plan.specs.Plan.{IsAccepted};
ghost use Rattle.mt_unit.specs.Plans.{act_bits, act_with, byte_of, plan_of, step_in};

use mt_plan::{Act, Algorithm, Step, step_at, steps};
use std::alloc::AllocError;

/// Bit 0 is 1 for the complement of the background word, bit 1 for a write.
fn act_bits(act: Act) -> u8
    ensures bits { result ≡ act_bits act }
    ensures small { result < 4 }
{
    match act {
        Act::ReadPlain => 0,
        Act::ReadFlipped => 1,
        Act::WritePlain => 2,
        Act::WriteFlipped => 3,
    }
}

/// The byte of a step on one of at most 64 cells.
pub fn step_byte(step: Step) -> u8
    requires { step.cell < 64 }
    ensures { result ≡ byte_of step }
{
    4 * step.cell + act_bits(step.act)
}

/// What two bits of a byte say.
fn act_with(write: bool, flipped: bool) -> Act
    ensures { result ≡ act_with write flipped }
{
    match (write, flipped) {
        (false, false) => Act::ReadPlain,
        (false, true) => Act::ReadFlipped,
        (true, false) => Act::WritePlain,
        (true, true) => Act::WriteFlipped,
    }
}

/// The step that a byte of a plan says.
pub fn read_byte(byte: u8) -> Step
    ensures { result ≡ step_in byte }
{
    Step {
        cell: byte / 4,
        act: act_with(byte / 2 % 2 == 1, byte % 2 == 1),
    }
}

/// Appends the plan of an algorithm for n cells.
pub fn push_plan(algorithm: &Algorithm, n: u32, out: &mut Vec<u64>) -> Result<(), AllocError>
    requires accepted { IsAccepted algorithm.now }
    requires some { 1 ≤ n }
    requires small { n ≤ 64 }
    ensures { OnOk result (out.new.items ≡ out.old.items ++ plan_of algorithm.now n) }
{
    for index in 0..steps(algorithm, n) {
        out.push(u64::from(step_byte(step_at(algorithm, n, index))))?;
    }
    Ok(())
}
