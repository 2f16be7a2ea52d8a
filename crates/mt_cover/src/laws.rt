//! Laws of coverage.

ghost use Rattle.mt_cover.specs.Coverage.{Coverage, MissesEachTabledFault};
ghost use Rattle.mt_cover.specs.Detection.{Detection, AttemptsDetect, WholeAttemptsEnd, AttemptsStaySound};
ghost use Rattle.mt_cover.specs.Further.{FurtherCoverage, MatsCatchesOneDirection};
ghost use Rattle.mt_cover.specs.Behaviour.{FaultsBehaveAsTheirClass};
ghost use Rattle.mt_cover.specs.Missed.{EmptyCellsAreMissed, MatsMissesOthers, SomeMarchMisses};

use mt_decoder::nothing_is_missed_where_all_pass;
use mt_fault::{last_access_decides, memory_stays_sound, other_words_do_not_matter};
use mt_plan::{kept_cells, march_on_kept_cells};
use mt_seq::caught_faults_fail;
use mt_word::bits_are_put;

/// Each fault of a tabled class that lies inside the cells under test makes some checked read answer another word
/// than it expects: for any number of cells, any background words, any first words and any accesses before. For a
/// decoder fault the background is one word for all cells.
pub fn each_tabled_fault_is_caught()
    ensures { Coverage }
{
    other_words_do_not_matter();
    last_access_decides();
    march_on_kept_cells();
    kept_cells();
}

/// `caught_at` answers an index for each such fault inside its span.
pub fn each_tabled_fault_has_an_index()
    ensures { MissesEachTabledFault }
{
    each_tabled_fault_is_caught();
    nothing_is_missed_where_all_pass();
}

/// A sequence on a slice with such a fault inside answers `Fail`, whatever the board's words are.
pub fn each_tabled_fault_in_a_slice_fails()
    ensures { Detection }
{
    each_tabled_fault_is_caught();
    caught_faults_fail();
    memory_stays_sound();
}

/// An attempt at such a slice that comes to a verdict fails too, and one that may not be dropped comes to a verdict.
pub fn attempts_detect()
    ensures detects { AttemptsDetect }
    ensures ends { WholeAttemptsEnd }
{
    each_tabled_fault_is_caught();
    caught_faults_fail();
    memory_stays_sound();
}

/// Whether it is dropped or not, an attempt at a slice leaves the RAM sound.
pub fn attempts_stay_sound()
    ensures { AttemptsStaySound }
{
    memory_stays_sound();
}

/// Beyond the table: March C- with `u` in place of `*`, MATS+ with stuck-at and decoder faults and with the transition
/// faults of one direction, and state coupling under walk path and Galpat.
pub fn further_faults_are_caught()
    ensures classes { FurtherCoverage }
    ensures transition { MatsCatchesOneDirection }
{
    other_words_do_not_matter();
    last_access_decides();
    march_on_kept_cells();
    kept_cells();
}

/// A fault's class says what the fault does to the bits and words that are stored: one bit is stuck, one never leaves a
/// value, a change or a value of one bit disturbs another, or an address does not reach its own cell alone.
pub fn faults_behave_as_their_class()
    ensures { FaultsBehaveAsTheirClass }
{
    bits_are_put();
    last_access_decides();
}

/// What no table of coverage has is missed: for each algorithm but the marches, and for MATS+, each other class has a fault
/// that passes; and for each class but stuck-at some accepted march has one.
pub fn empty_cells_are_missed()
    ensures cells { EmptyCellsAreMissed }
    ensures mats { MatsMissesOthers }
    ensures marches { SomeMarchMisses }
{}
