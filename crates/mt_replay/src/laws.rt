//! Laws of replays.

ghost use Rattle.mt_replay.specs.Fixed.{FormattingKeepsOutcomes, MigratingKeepsOutcomes};
ghost use Rattle.mt_replay.specs.OwnTraces.{OwnTracesAreTheSame};
ghost use Rattle.mt_replay.specs.Promises.{TracesAreOfSteps};

use mt_conf::accepted_is_taken;
use mt_text::{canonical_lines_spell_themselves, reading_is_spelling, spelled_lines_are_accepted};
use mt_verify::equal_texts;

/// The text of a replay is that of the steps of its lines, and then one line on how it ended.
pub fn traces_are_of_steps()
    ensures { TracesAreOfSteps }
{}

/// What `fmt` writes for an accepted input gives in each form what the input gives, where that text is within the limits
/// of an input and its configuration is read back. With `fmt` it is written again byte for byte.
pub fn formatting_keeps_outcomes()
    ensures { FormattingKeepsOutcomes }
{
    accepted_is_taken();
    reading_is_spelling();
    spelled_lines_are_accepted();
    canonical_lines_spell_themselves();
}

/// What `migrate` writes for an accepted input gives in each form but `fmt` what the input gives, under the same premises:
/// it replays to the same text and status, whatever defect the board has, and migrating it again changes nothing.
pub fn migrating_keeps_outcomes()
    ensures { MigratingKeepsOutcomes }
{
    accepted_is_taken();
    reading_is_spelling();
    spelled_lines_are_accepted();
    canonical_lines_spell_themselves();
}

/// A job whose own trace stands after its script is verified as the same: `verify` answers so for what `run` writes, if the
/// input ends with a line feed and its script is within the limits of `verify`.
pub fn own_traces_are_the_same()
    ensures { OwnTracesAreTheSame }
{
    equal_texts();
}
