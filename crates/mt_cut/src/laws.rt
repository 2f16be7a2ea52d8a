//! Laws of cuts.

ghost use Rattle.mt_cut.specs.Atomic.{LargestBoundsWaits};
ghost use Rattle.mt_cut.specs.Cuts.{LongestRunsAreUnder, LongestRunsAreLeast};

/// Where no slice alone is above a budget, the cut in which each run in turn is the longest within it is under it, and no
/// cut under it has fewer ticks.
pub fn longest_runs_are_least()
    ensures under { LongestRunsAreUnder }
    ensures least { LongestRunsAreLeast }
{}

/// A request that meets a sequence of at most as many words as the greatest slice for a wait waits at most so long, whichever
/// block of the set the sequence is of.
pub fn greatest_slices_bound_waits()
    ensures { LargestBoundsWaits }
{}
