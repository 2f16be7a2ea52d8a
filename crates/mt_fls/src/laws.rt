//! Laws of FlsTst.

ghost use Rattle.mt_window.specs.Waits.{ServesInTime, KeepsBoard, MakesShortAttempts};
ghost use Rattle.mt_fls.specs.Event.{ticking};
ghost use Rattle.mt_fls.specs.Laws.{ForegroundTestsServeInTime, ForegroundTestsMakeShortAttempts, ForegroundTestsKeepTheBoard, TicksRest, TicksCompare, TicksEndTheirGroup, BoundariesMove, RequestsLeftMove, ServicesLeaveSetting};
ghost use Rattle.mt_fls.specs.Tested.{IntervalsAreOfSequences, IdentifiersCount, ForegroundTestsAreOfSequences, InitForgets, ServicesLeaveResults, MarksAreOfCalls};

use crate::block_walk::BlockWalk;
use crate::pass_walk::PassWalk;
use crate::state::Fls;
use mt_blocks::{passes_begin, passes_go_on};
use mt_window::{attempts_are_within, requests_are_served, waits_are_short};

/// Each request of a running event is served where its offset says, and waits 0 or less than the length of the attempt
/// that it meets.
pub fn waits_of_running_calls()
    ensures tick { ServesInTime ticking }
    ensures foreground { ForegroundTestsServeInTime }
{
    requests_are_served::<Fls, PassWalk>();
    waits_are_short::<Fls, PassWalk>();
    requests_are_served::<Fls, BlockWalk>();
    waits_are_short::<Fls, BlockWalk>();
}

/// No attempt of a running call has more accesses than the comparison of its slice.
pub fn attempts_of_running_calls()
    ensures tick { MakesShortAttempts ticking }
    ensures foreground { ForegroundTestsMakeShortAttempts }
{
    attempts_are_within::<Fls, PassWalk>();
    attempts_are_within::<Fls, BlockWalk>();
}

/// Running calls leave the board's shape, fault, flash words and defect, and whether interrupts are held.
pub fn running_calls_keep_the_board()
    ensures tick { KeepsBoard ticking }
    ensures foreground { ForegroundTestsKeepTheBoard }
{
    requests_are_served::<Fls, PassWalk>();
    requests_are_served::<Fls, BlockWalk>();
}

/// When a tick compares nothing, and when it ends its group early.
pub fn ticks_end_by_the_mark()
    ensures rest { TicksRest }
    ensures compare { TicksCompare }
    ensures group { TicksEndTheirGroup }
{
    passes_go_on();
    passes_begin();
}

/// What handlers' calls leave of the module.
pub fn handlers_leave_results()
    ensures boundary { BoundariesMove }
    ensures left { RequestsLeftMove }
{}

/// No service changes the configuration or the shape.
pub fn services_leave_setting()
    ensures { ServicesLeaveSetting }
{}

/// An interval is OK exactly where none of its sequences found a difference, and NOT_OK exactly where some did; and so is a
/// foreground test. The k-th interval that is completed after Init, from 0 on, has k modulo (the greatest identifier + 1).
pub fn results_are_of_sequences()
    ensures intervals { IntervalsAreOfSequences }
    ensures identifiers { IdentifiersCount }
    ensures foreground { ForegroundTestsAreOfSequences }
{}

/// Init forgets all that was, and no other service changes what is shown.
pub fn results_are_reset()
    ensures init { InitForgets }
    ensures kept { ServicesLeaveResults }
{}

/// The mark is set exactly by an accepted Abort or Suspend of a handler.
pub fn marks_are_of_calls()
    ensures { MarksAreOfCalls }
{}
