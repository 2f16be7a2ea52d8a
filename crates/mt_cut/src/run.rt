//! Runs of next slices, and the fewest ticks of a pass.

ghost use Rattle.std.specs.Prelude.{ℕ, ◌≡◌, ◌∷◌, ◌<◌, ◌≤◌, ◌↔◌, IfSome, IfNone, None, All, slice_index};
ghost use Rattle.mt_blocks.specs.Slices.{IsValid};
ghost use Rattle.mt_blocks.specs.Accepted.{spans_of};
ghost use Rattle.mt_cut.specs.Holds.{IsOfAccepted, pass_holds, holds_from, holds_next};
ghost use Rattle.mt_cut.specs.Cuts.{Exceeds, IsLeast, IsLongest, longest_runs};
ghost use Rattle.mt_cut.specs.Runs.{IsRun, IsAbove};

use crate::step::{pass_start, step_at};
use mt_blocks::{ParamSet, Position};

/// A run of next slices, which one tick tests: how many they are, how many accesses their sequences have, and the
/// position of the slice behind them; none at the pass's end.
#[derive(Clone, Copy, Debug, PartialEq, Eq)]
pub struct Run {
    pub slices: u32,
    pub accesses: u32,
    pub next: Option<Position>,
}

/// A slice whose sequence alone is above a budget: its number in the pass, counted from 0, and how many accesses the
/// sequence has.
#[derive(Clone, Copy, Debug, PartialEq, Eq)]
pub struct Above {
    pub slice: u32,
    pub hold: u32,
}

// The longest run from a position within a budget. It has no slice where the first one alone is above it.
fn longest_run(set: &ParamSet, at: Position, budget: u32) -> Run
    requires set { IsOfAccepted set.now }
    requires valid { IsValid set.now.atomic (spans_of set.now.blocks) at }
    ensures { IsRun budget set.now at result }
{
    let mut run = Run {
        slices: 0,
        accesses: 0,
        next: Some(at),
    };
    while let Some(place) = run.next {
        let step = step_at(set, place);
        if step.hold > budget - run.accesses {
            break;
        }
        run = Run {
            slices: run.slices + 1,
            accesses: run.accesses + step.hold,
            next: step.next,
        };
    }
    run
}

/// The longest run from a position within a budget; none where the first slice alone is above it.
pub fn run_from(set: &ParamSet, at: Position, budget: u32) -> Option<Run>
    requires set { IsOfAccepted set.now }
    requires valid { IsValid set.now.atomic (spans_of set.now.blocks) at }
    ensures run { IfSome result (IsRun budget set.now at) }
    ensures some { IfSome result (λ run. 1 ≤ run.slices) }
    // It is the first of the longest runs from there.
    ensures cut { IfSome result (λ run.
        longest_runs budget (holds_from set.now at)
        ≡ run.slices ∷ longest_runs budget (holds_next set.now run.next)) }
    ensures none { result ≡ None ↔ (budget < slice_index (holds_from set.now at) 0) }
{
    if step_at(set, at).hold > budget {
        return None;
    }
    Some(longest_run(set, at, budget))
}

/// How many slices the longest run from a position within a budget has; none where the first slice alone is above it.
pub fn next_run(set: &ParamSet, at: Position, budget: u32) -> Option<u32>
    requires set { IsOfAccepted set.now }
    requires valid { IsValid set.now.atomic (spans_of set.now.blocks) at }
    ensures some { IfSome result (λ slices. 1 ≤ slices) }
    ensures longest { IfSome result (IsLongest budget (holds_from set.now at)) }
    ensures none { result ≡ None ↔ (budget < slice_index (holds_from set.now at) 0) }
{
    match run_from(set, at, budget) {
        Some(run) => Some(run.slices),
        None => None,
    }
}

/// The fewest ticks in which a pass may be cut under a budget of accesses per tick; none where some slice alone is above
/// the budget.
pub fn least_ticks(set: &ParamSet, budget: u32) -> Option<u32>
    requires { IsOfAccepted set.now }
    ensures least { IfSome result (IsLeast budget (pass_holds set.now)) }
    ensures none { result ≡ None ↔ Exceeds budget (pass_holds set.now) }
{
    let mut ticks = 0;
    let mut next = pass_start(set);
    while let Some(at) = next {
        match run_from(set, at, budget) {
            Some(run) => {
                ticks += 1;
                next = run.next;
            }
            None => return None,
        }
    }
    Some(ticks)
}

/// The first slice of a pass whose sequence alone is above a budget.
pub fn first_above(set: &ParamSet, budget: u32) -> Option<Above>
    requires { IsOfAccepted set.now }
    ensures above { IsAbove budget (pass_holds set.now) result }
    ensures low { IfNone result (All (λ hold. hold ≤ budget) (pass_holds set.now)) }
{
    let mut slice = 0;
    let mut next = pass_start(set);
    while let Some(at) = next {
        let step = step_at(set, at);
        if step.hold > budget {
            return Some(Above {
                slice,
                hold: step.hold,
            });
        }
        slice += 1;
        next = step.next;
    }
    None
}
