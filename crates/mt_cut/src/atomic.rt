//! The greatest slice for a wait.

ghost use Rattle.std.specs.Prelude.{ℕ, ◌≡◌, ◌≤◌, ◌↔◌, IfSome, None, IsTrue};
ghost use Rattle.mt_cut.specs.Holds.{IsOfAccepted};
ghost use Rattle.mt_cut.specs.Atomic.{waits_at_most, largest, IsLargest, HasNoLargest};

use mt_blocks::ParamSet;
use mt_plan::hold_of;

// Whether no request waits longer for the sequence of so many words, whichever block of the set they are of.
fn waits_at_most(set: &ParamSet, wait: u32, words: u32) -> bool
    requires set { IsOfAccepted set.now }
    requires some { 1 ≤ words }
    requires small { words ≤ 64 }
    ensures { result ≡ waits_at_most set.now wait words }
{
    for block in set.blocks.as_slice() {
        if hold_of(&set.alg, block.policy, words) - 1 > wait {
            return false;
        }
    }
    true
}

/// The greatest number of words of a slice, from 1 to 64, for which no request waits longer than so many accesses; none
/// where even one word is too many.
pub fn largest_atomic(set: &ParamSet, wait: u32) -> Option<u32>
    requires { IsOfAccepted set.now }
    ensures value { result ≡ largest set.now wait }
    ensures largest { IfSome result (IsLargest set.now wait) }
    ensures none { result ≡ None ↔ HasNoLargest set.now wait }
{
    for words in (1..=64).rev() {
        if waits_at_most(set, wait, words) {
            return Some(words);
        }
    }
    None
}
