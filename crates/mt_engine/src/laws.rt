//! Laws of tests, for any memory.

ghost use Rattle.mt_engine.specs.Laws.{BrokenTestsPutTheWordsBack, MayBeBrokenOffBeforeTheWritesBack, SeenDifferencesAreReported, TestsAskForTheSequence};

use mt_plan::lengths;
use mt_seq::answers_make_the_sequence;

/// Whatever a test is answered, it asks for the accesses of its sequence, one after another, and ends with a pass exactly where
/// each checked read answered its word. One that is broken off writes the saved words back, where it has written at all.
pub fn tests_ask_for_the_sequence()
    ensures asks { TestsAskForTheSequence }
    ensures back { BrokenTestsPutTheWordsBack }
{
    lengths();
    answers_make_the_sequence();
}

/// A test may be broken off exactly while it keeps the words and the writes that put them back have not begun; and one that is
/// broken off reports a difference that it has seen.
pub fn tests_may_be_broken_off()
    ensures may { MayBeBrokenOffBeforeTheWritesBack }
    ensures seen { SeenDifferencesAreReported }
{
    lengths();
    answers_make_the_sequence();
}
