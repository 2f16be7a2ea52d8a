//! How many accesses there are.

ghost use Rattle.std.specs.Prelude.{◌≡◌, ◌≤◌, ◌*◌, length};
ghost use Rattle.mt_march.specs.Accepted.{operations};
ghost use Rattle.mt_plan.specs.Plan.{IsAccepted, steps_of, step_count, hold_of};

use crate::algorithm::{Algorithm, Policy};
use mt_march::March;

/// How many operations a march makes on one cell.
fn op_count(march: &March) -> u32
    requires few { length march.now.elements.items ≤ 16 }
    ensures count { result ≡ length (operations march.now.elements.items) }
    ensures few { result ≤ 128 }
{
    let mut count = 0;
    for element in march.elements.as_slice() {
        count += element.ops.as_slice().len() as u32;
    }
    count
}

/// How many accesses an algorithm makes on n cells.
#[tactic(auto, unfolding(crate::specs::Plan::step_count))]
pub fn steps(algorithm: &Algorithm, n: u32) -> u32
    requires accepted { IsAccepted algorithm.now }
    requires small { n ≤ 64 }
    // The closed form of the algorithm.
    ensures count { result ≡ step_count algorithm.now n }
    // The length of the list.
    ensures length { result ≡ length (steps_of algorithm.now n) }
    ensures few { result ≤ 260 * n }
{
    match algorithm {
        Algorithm::Checkerboard => 4 * n,
        Algorithm::March(march) => op_count(march) * n,
        Algorithm::WalkPath => 2 * (n * n) + 6 * n,
        Algorithm::Galpat | Algorithm::TransparentGalpat => 4 * (n * n) + 4 * n,
    }
}

/// How many accesses a sequence on n cells has: the algorithm's, and those that save and restore the words or fill the cells.
pub fn hold_of(algorithm: &Algorithm, policy: Policy, n: u32) -> u32
    requires accepted { IsAccepted algorithm.now }
    requires small { n ≤ 64 }
    ensures hold { result ≡ hold_of algorithm.now policy n }
    ensures few { result ≤ 262 * n }
{
    let steps = steps(algorithm, n);
    match policy {
        Policy::NonDestructive => steps + 2 * n,
        Policy::Destructive => steps + n,
    }
}
