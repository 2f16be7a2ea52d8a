//! The slices of a pass, one after another.

ghost use Rattle.std.specs.Prelude.{ℕ, ◌≡◌, ◌≤◌, ◌*◌, ◌∷◌, length, IfSome};
ghost use Rattle.mt_blocks.specs.Slices.{IsValid, piece_at};
ghost use Rattle.mt_blocks.specs.Accepted.{spans_of};
ghost use Rattle.mt_cut.specs.Holds.{IsOfAccepted, hold_in, pass_holds, holds_from, holds_next};
ghost use Rattle.mt_cut.specs.Cuts.{longest_runs};

use mt_blocks::{ParamSet, Position, first_place, following, slice_at};
use mt_plan::hold_of;

/// A slice of a pass: how many accesses its sequence has, and the position of the next one; none after the last.
#[derive(Clone, Copy, Debug, PartialEq, Eq)]
pub struct Step {
    pub hold: u32,
    pub next: Option<Position>,
}

/// The position of the first slice of a pass over a set.
pub fn pass_start(set: &ParamSet) -> Option<Position>
    requires { IsOfAccepted set.now }
    ensures valid { IfSome result (IsValid set.now.atomic (spans_of set.now.blocks)) }
    ensures all { holds_next set.now result ≡ pass_holds set.now }
    ensures few { length (pass_holds set.now) ≤ 64 * 65536 }
    ensures short { (budget : ℕ) → length (longest_runs budget (pass_holds set.now)) ≤ 64 * 65536 }
{
    first_place(set.blocks.as_slice())
}

// How many accesses the sequence of the slice at a position has.
#[tactic(auto, using(crate::proofs::Sets::are_spans, crate::proofs::Sets::block_there, crate::proofs::Sets::hold_some))]
fn hold_at(set: &ParamSet, at: Position) -> u32
    requires set { IsOfAccepted set.now }
    requires valid { IsValid set.now.atomic (spans_of set.now.blocks) at }
    ensures hold { result ≡ hold_in set.now (piece_at set.now.atomic (spans_of set.now.blocks) at) }
    ensures some { 1 ≤ result }
{
    let blocks = set.blocks.as_slice();
    let words = u32::from(slice_at(blocks, set.atomic, at).n);
    hold_of(&set.alg, blocks[at.block as usize].policy, words)
}

/// The slice at a position.
pub fn step_at(set: &ParamSet, at: Position) -> Step
    requires set { IsOfAccepted set.now }
    requires valid { IsValid set.now.atomic (spans_of set.now.blocks) at }
    ensures some { 1 ≤ result.hold }
    ensures valid { IfSome result.next (IsValid set.now.atomic (spans_of set.now.blocks)) }
    ensures rest { holds_from set.now at ≡ result.hold ∷ holds_next set.now result.next }
{
    Step {
        hold: hold_at(set, at),
        next: following(set.blocks.as_slice(), set.atomic, at),
    }
}
