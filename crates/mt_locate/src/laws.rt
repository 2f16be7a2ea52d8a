//! Laws of faults of a slice.

ghost use Rattle.mt_locate.specs.Explanations.{MissesAreThoseOfTheMemory};
ghost use Rattle.mt_locate.specs.Listed.{ExplainsIsTested, FaultsAreListedOnce, FaultsOfTheSliceAreListed};
ghost use Rattle.mt_locate.specs.Lanes.{BitsDecide};
ghost use Rattle.mt_locate.specs.LineRules.{MissLinesAreExact, MissRefusalsAreLeast, SliceLinesAreExact, SliceRefusalsAreLeast};
ghost use Rattle.mt_locate.specs.Moved.{FaultsStayWellPlaced};
ghost use Rattle.mt_locate.specs.Order.{FaultsAreInOrder};
ghost use Rattle.mt_locate.specs.Suspects.{CulpritsAreSuspects, FirstMissTellsWhatIsSeen};

use mt_plan::plans_are_steady;
use mt_word::bits_are_put;

/// A fault that lies inside a slice of n words lies, moved down, in n words.
pub fn faults_of_a_slice_stay_well_placed()
    ensures { FaultsStayWellPlaced }
{}

/// What is missed on the words that stand for a slice is what is missed in every memory that has the slice with `initial`
/// in each of its words, whatever its other words are.
pub fn misses_are_those_of_the_memory()
    ensures { MissesAreThoseOfTheMemory }
{
    plans_are_steady();
    faults_of_a_slice_stay_well_placed();
}

/// The list of all faults of a slice has each fault that lies inside it, and no other.
pub fn faults_of_the_slice_are_listed()
    ensures { FaultsOfTheSliceAreListed }
{}

/// That list rises strictly, by the kinds in the order of the script's table and then by the fields of the lines.
pub fn faults_are_listed_in_order()
    ensures { FaultsAreInOrder }
{}

/// In that list no fault stands twice.
pub fn faults_are_listed_once()
    ensures { FaultsAreListedOnce }
{
    faults_are_listed_in_order();
}

/// The faults of a list that explain the misses are those of the definition.
pub fn explaining_is_tested()
    ensures { ExplainsIsTested }
{}

/// Where a word without a cell explains the misses, the first miss tells what is seen there.
pub fn first_miss_tells_what_is_seen()
    ensures { FirstMissTellsWhatIsSeen }
{
    plans_are_steady();
    faults_of_a_slice_stay_well_placed();
}

/// A fault that explains the misses is one that may make the read of the first miss answer so.
pub fn culprits_are_suspects()
    ensures { CulpritsAreSuspects }
{
    bits_are_put();
    plans_are_steady();
    faults_of_a_slice_stay_well_placed();
}

/// Whether a coupling fault explains that nothing was missed is decided by two bits: by how the probe treats those of the
/// aggressor and of the victim, and by the steps on their words.
pub fn bits_decide()
    ensures { BitsDecide }
{
    bits_are_put();
    plans_are_steady();
    faults_of_a_slice_stay_well_placed();
}

/// A text is read as a line `slice S B J` or `miss I WORD` exactly where it is one: the fixed word, the numbers, and what they
/// name.
pub fn lines_are_exact()
    ensures slices { SliceLinesAreExact }
    ensures misses { MissLinesAreExact }
{}

/// A line that is refused tells the least rule that its first wrong token breaks, at that token's place.
pub fn refused_lines_tell_the_least_rule()
    ensures slices { SliceRefusalsAreLeast }
    ensures misses { MissRefusalsAreLeast }
{}
