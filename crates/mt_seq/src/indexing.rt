//! The access with an index of a sequence.

ghost use Rattle.std.specs.Prelude.{◌≡◌, ◌<◌, ◌≤◌, ◌+◌, ◌-◌, ◌^◌, Bool, Some, length, All, if◌then◌else◌, slice_index, true};
ghost use Rattle.mt_word.specs.Word.{Fits};
ghost use Rattle.mt_fault.specs.Items.{Store};
ghost use Rattle.mt_plan.specs.Plan.{steps_of};
ghost use Rattle.mt_seq.specs.Sequence.{back_of, is_transparent, last_of, saving, sequence_hold, IsSoundJob, IsSoundSlice};
ghost use Rattle.mt_seq.specs.Stepping.{item_at, item_of_access, place_of, FitsAccess, IsNoLook};

use crate::access::{Access, access_of, word_of};
use crate::course::{is_transparent, saving_reads};
use crate::sequence::{Job, Slice};
use mt_plan::{Policy, step_at, steps};
use mt_word::Width;

/// The access of the algorithm with an index.
fn tested_at(job: &Job, slice: Slice, width: Width, index: u32, saved: &[u64]) -> Access
    requires job { IsSoundJob width job.now }
    requires slice { IsSoundSlice (2 ^ 32 - 1) slice }
    requires within { index < length (steps_of job.now.alg slice.n) }
    requires fit { All (Fits width) saved.now }
    requires whole { job.now.policy ≡ Policy.NonDestructive → slice.n ≤ length saved.now }
    ensures item { (differs : Bool) →
        item_at width (record { job = job.now; slice = slice; made = length (saving job.now.policy slice) + index; saved = saved.now; differs = differs })
        ≡ Some (item_of_access result) }
    ensures kind { IsNoLook (item_of_access result) }
    ensures inside { place_of result < slice.first + slice.n }
    ensures fits { FitsAccess width result }
{
    let step = step_at(&job.alg, u32::from(slice.n), index);
    let back = background(job, saved, step.cell);
    let addr = slice.first + u32::from(step.cell);
    access_of(addr, word_of(width, back, step.act), step.act)
}

/// The background word of a cell.
fn background(job: &Job, saved: &[u64], cell: u8) -> u64
    requires { is_transparent job.now.alg ≡ true → cell < length saved.now }
    ensures { result ≡ back_of job.now saved.now cell }
{
    if is_transparent(&job.alg) {
        saved[cell as usize]
    } else {
        job.background
    }
}

/// The word that a cell is left with.
fn last_word(job: &Job, saved: &[u64], cell: u32) -> u64
    requires { job.now.policy ≡ Policy.NonDestructive → cell < length saved.now }
    ensures { result ≡ last_of job.now.policy job.now.fill saved.now cell }
{
    match job.policy {
        Policy::NonDestructive => saved[cell as usize],
        Policy::Destructive => job.fill,
    }
}

/// The access with an index of a sequence, counted from 0, where its saving reads have answered `saved`. Of a sequence that
/// keeps the words, all of these are asked for behind the saving reads.
pub fn access_at(job: &Job, slice: Slice, width: Width, index: u32, saved: &[u64]) -> Access
    requires job { IsSoundJob width job.now }
    requires slice { IsSoundSlice (2 ^ 32 - 1) slice }
    requires within { index < sequence_hold job.now slice.n }
    requires fit { All (Fits width) saved.now }
    requires whole { job.now.policy ≡ Policy.NonDestructive → slice.n ≤ index → slice.n ≤ length saved.now }
    ensures item { (differs : Bool) →
        item_at width (record { job = job.now; slice = slice; made = index; saved = saved.now; differs = differs })
        ≡ Some (item_of_access result) }
    // It is a saving read where the words are kept, up to the number of the slice's words.
    ensures saving { job.now.policy ≡ Policy.NonDestructive → index < slice.n
        → result ≡ Access.Look (slice.first + index) }
    ensures behind { slice.n ≤ index → IsNoLook (item_of_access result) }
    ensures filling { job.now.policy ≡ Policy.Destructive → IsNoLook (item_of_access result) }
    ensures inside { place_of result < slice.first + slice.n }
    ensures fits { FitsAccess width result }
{
    let testing_from = saving_reads(job.policy, slice);
    let ending_from = testing_from + steps(&job.alg, u32::from(slice.n));
    if index < testing_from {
        Access::Look {
            addr: slice.first + index,
        }
    } else if index < ending_from {
        tested_at(job, slice, width, index - testing_from, saved)
    } else {
        let cell = index - ending_from;
        Access::Store {
            addr: slice.first + cell,
            word: last_word(job, saved, cell),
        }
    }
}

#[cfg(test)]
mod tests {
    use super::*;
    use mt_plan::Algorithm;

    #[test]
    #[tactic(auto, unfolding(crate::specs::Sequence::sequence_hold, mt_plan::specs::Plan::step_count))]
    fn checkerboard_keeps_two_words(rt: HostRuntime) {
        let job = Job {
            alg: Algorithm::Checkerboard,
            policy: Policy::NonDestructive,
            background: 0,
            fill: 0,
        };
        let slice = Slice { first: 8, n: 2 };
        let saved = [7, 9];
        assert_eq!(rt;
            access_at(&job, slice, Width::W8, 1, &saved),
            Access::Look { addr: 9 }
        );
        assert_eq!(rt;
            access_at(&job, slice, Width::W8, 3, &saved),
            Access::Store { addr: 9, word: 255 }
        );
        assert_eq!(rt;
            access_at(&job, slice, Width::W8, 5, &saved),
            Access::Check { addr: 9, word: 255 }
        );
        assert_eq!(rt;
            access_at(&job, slice, Width::W8, 11, &saved),
            Access::Store { addr: 9, word: 9 }
        );
    }
}
