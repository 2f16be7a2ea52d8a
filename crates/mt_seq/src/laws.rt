//! Laws of sequences.

ghost use Rattle.mt_seq.specs.Laws.{AttemptsEndAtTheFirstMoment, ComparisonsFindTheFirst, OwnAccessesDecide, SoundMemoryPasses, SoundMemoryStays, CaughtFaultsFail, SequencesAreShort, HoldsAreLengths, ComparisonsArePairs, NothingIsFoundWhereAllEqual};
ghost use Rattle.mt_seq.specs.Laws.{SequencesBegin, SequencesGoOn, SequencesEnd, AttemptsAreCounted, AttemptsAreShort, AttemptsAreTold, NoAttemptIsEmpty, DroppedAttemptsServe, DroppedAttemptsStay, UrgentWaitsAreShort, WholeAttemptsPass};
ghost use Rattle.mt_seq.specs.Told.{AnswersMakeTheSequence, SavedWordsAreWrittenBack, ToldSequencesAreHolds};

/// On sound memory each sequence passes, and the words stay as they were, or the fill is left.
pub fn sound_memory()
    ensures passes { SoundMemoryPasses }
    ensures stays { SoundMemoryStays }
{}

/// A fault that the algorithm catches after any earlier history makes the sequence fail.
pub fn caught_faults_fail()
    ensures { CaughtFaultsFail }
{}

/// No sequence has more than 262 accesses a word, so none has more than 16,768.
pub fn sequences_are_short()
    ensures { SequencesAreShort }
{}

/// From the first step to the last a sequence makes its accesses, and in the end it has its verdict.
pub fn steps_make_the_sequence()
    ensures begin { SequencesBegin }
    ensures go_on { SequencesGoOn }
    ensures end { SequencesEnd }
{}

/// Whatever a sequence is answered, its accesses are those of the list of these answers, one after another and as many as its
/// hold says, and it differs where a checked read among them answered another word. The last of them write the saved words
/// back, where the words are kept.
pub fn answers_make_the_sequence()
    ensures told { AnswersMakeTheSequence }
    ensures count { ToldSequencesAreHolds }
    ensures back { SavedWordsAreWrittenBack }
{}

/// The list of a sequence is as long as its hold.
pub fn holds_are_lengths()
    ensures { HoldsAreLengths }
{}

/// On sound memory a dropped attempt leaves the words as they were; one that is not dropped passes, and leaves them or the fill.
pub fn attempts_on_sound_memory()
    ensures stays { DroppedAttemptsStay }
    ensures passes { WholeAttemptsPass }
{}

/// How long an attempt is, that it is no longer than its sequence and never empty, and that a tape tells all of it.
pub fn attempts_are_counted()
    ensures count { AttemptsAreCounted }
    ensures short { AttemptsAreShort }
    ensures some { NoAttemptIsEmpty }
    ensures told { AttemptsAreTold }
{}

/// Where an attempt is dropped an urgent request is due, and none that falls due in an attempt waits longer than the slice has words.
pub fn urgent_requests_wait_shortly()
    ensures serves { DroppedAttemptsServe }
    ensures short { UrgentWaitsAreShort }
{}

/// A flash sequence has two accesses a word, and finds nothing exactly where each word equals its copy.
pub fn comparisons_are_exact()
    ensures pairs { ComparisonsArePairs }
    ensures nothing { NothingIsFoundWhereAllEqual }
{}

/// Accesses of words that are none of the fault's decide nothing: a sequence that keeps the words comes to what its accesses of the
/// fault's words come to.
pub fn own_accesses_decide()
    ensures { OwnAccessesDecide }
{}

/// An attempt is dropped exactly at the first moment at which it may be given up and an urgent request is due.
pub fn attempts_end_at_the_first_moment()
    ensures { AttemptsEndAtTheFirstMoment }
{}

/// A comparison tells the first word that differs from its copy.
pub fn comparisons_find_the_first()
    ensures { ComparisonsFindTheFirst }
{}
