//! Laws of RamTst.

ghost use Rattle.mt_ram.specs.Event.{ticking, full_test};
ghost use Rattle.mt_window.specs.Waits.{ServesInTime, KeepsBoard, MakesShortAttempts};
ghost use Rattle.mt_ram.specs.Plain.{LeavesNoTrace, PartialTestsLeaveNoTrace};
ghost use Rattle.mt_ram.specs.Laws.{PartialTestsServeInTime, PartialTestsMakeShortAttempts, TestsItsSet, PartialTestsTestTheirSet, TriesSlices, PartialTestsTrySlices, PartialTestsKeepTheBoard, DroppedAttemptsLeaveWords, TicksRest, TicksTest, TicksEndTheirGroup, BoundariesMove, RequestsLeftMove, ServicesLeaveSetting, LeavesSetting, PartialTestsLeaveSetting};
ghost use Rattle.mt_ram.specs.Tested.{ResultsAreOfTests, FailuresAreKept, OtherBlocksStay, OverallIsOfAll, ResultsAreReset, InitForgets, MarksAreOfCalls};
ghost use Rattle.mt_ram.specs.Inner.Sets.{SetsAreCut, SlicesAreSound};

use crate::pass_walk::PassWalk;
use crate::state::Ram;
use crate::test_walk::TestWalk;
use mt_blocks::passes_go_on;
use mt_seq::{attempts_are_counted, attempts_on_sound_memory, urgent_requests_wait_shortly};
use mt_window::{attempts_are_within, requests_are_served, waits_are_short};

/// Each request of a running event is served where its offset says, and waits 0 or less than the length of the attempt
/// that it meets. An urgent one that meets an attempt which might be dropped waits at most the words of the slice.
pub fn waits_of_running_calls()
    ensures tick { ServesInTime ticking }
    ensures full { ServesInTime full_test }
    ensures partial { PartialTestsServeInTime }
{
    urgent_requests_wait_shortly();
    requests_are_served::<Ram, PassWalk>();
    waits_are_short::<Ram, PassWalk>();
    requests_are_served::<Ram, TestWalk>();
    waits_are_short::<Ram, TestWalk>();
}

/// No attempt of a running call has more accesses than the sequence of its slice.
pub fn attempts_of_running_calls()
    ensures tick { MakesShortAttempts ticking }
    ensures full { MakesShortAttempts full_test }
    ensures partial { PartialTestsMakeShortAttempts }
{
    attempts_are_counted();
    attempts_are_within::<Ram, PassWalk>();
    attempts_are_within::<Ram, TestWalk>();
}

/// A running call tests slices of a pass over the selected set, and the set stays selected.
pub fn running_calls_test_their_set()
    ensures tick { TestsItsSet ticking }
    ensures full { TestsItsSet full_test }
    ensures partial { PartialTestsTestTheirSet }
{}

/// The attempts of a running call are at slices of a pass over the selected set. The whole sequence of each has the accesses of the
/// set's algorithm on the words of the slice, and of its block's policy.
pub fn attempts_are_at_slices()
    ensures tick { TriesSlices ticking }
    ensures full { TriesSlices full_test }
    ensures partial { PartialTestsTrySlices }
{}

/// Running calls leave the board's shape, fault, flash words and defect, and whether interrupts are held.
pub fn running_calls_keep_the_board()
    ensures tick { KeepsBoard ticking }
    ensures full { KeepsBoard full_test }
    ensures partial { PartialTestsKeepTheBoard }
{
    requests_are_served::<Ram, PassWalk>();
    requests_are_served::<Ram, TestWalk>();
}

/// On a board without a fault an attempt that is dropped leaves the words as they were.
pub fn dropped_attempts_leave_words()
    ensures { DroppedAttemptsLeaveWords }
{
    attempts_on_sound_memory();
}

/// On sound memory a running call comes to the same where its sequences touch no word of the application, but that each one
/// that has ended leaves the fill of a destructive block: whatever the requests' handlers do, and over attempts that urgent
/// requests end.
pub fn tests_leave_no_trace()
    ensures tick { LeavesNoTrace ticking }
    ensures full { LeavesNoTrace full_test }
    ensures partial { PartialTestsLeaveNoTrace }
{
    attempts_on_sound_memory();
}

/// When a tick tests nothing, and when it ends its group early.
pub fn ticks_end_by_the_mark()
    ensures rest { TicksRest }
    ensures test { TicksTest }
    ensures group { TicksEndTheirGroup }
{
    passes_go_on();
    attempts_are_counted();
}

/// What handlers' calls leave of the module.
pub fn handlers_leave_results()
    ensures boundary { BoundariesMove }
    ensures left { RequestsLeftMove }
{}

/// No service changes the configuration or the shape.
pub fn services_leave_setting()
    ensures { ServicesLeaveSetting }
{}

/// No running call changes them either.
pub fn running_calls_leave_setting()
    ensures tick { LeavesSetting ticking }
    ensures full { LeavesSetting full_test }
    ensures partial { PartialTestsLeaveSetting }
{}

/// A block is OK where the latest slice that decides ended a test all of whose slices passed, and NOT_OK where its test failed;
/// the overall result is that of all blocks.
pub fn results_are_of_tests()
    ensures blocks { ResultsAreOfTests }
    ensures failures { FailuresAreKept }
    ensures others { OtherBlocksStay }
    ensures overall { OverallIsOfAll }
{}

/// Init and SelectAlgParams alone reset the results, and Init forgets all that was.
pub fn results_are_reset()
    ensures reset { ResultsAreReset }
    ensures init { InitForgets }
{}

/// The mark is set exactly by an accepted Stop or Suspend of a handler.
pub fn marks_are_of_calls()
    ensures { MarksAreOfCalls }
{}

/// An accepted set is cut into slices, each of which is a part of the RAM that its job tests soundly.
pub fn accepted_sets_are_sound()
    ensures cut { SetsAreCut }
    ensures slices { SlicesAreSound }
{}
