//! Laws of running events, for each call of any module.

ghost use Rattle.mt_window.specs.Waits.{ServesByOffset, ServesInOrder, TakesAll, KeepsBoard, WaitsAreShortIn, DropsInTime, UrgentWaitsAreShortIn, AttemptsAreWithin, MakesShortAttempts, AnEventHasRoom};
ghost use Rattle.mt_window.specs.Handlers.{HandlersAreDone, CountsOperations, OpensWithDue, EndsWithLeft};

use crate::serve::Callee;
use crate::walk::Walk;

/// Each request of an event is served once, in the order of the line, with one entry for each of its operations, and
/// none is left. Its offset says where: at the first boundary that the offset doesn't exceed.
pub fn requests_are_served<C: Callee, W: Walk<C>>()
    ensures places { (name : _) → ServesByOffset (W.running name) }
    ensures order { (name : _) → ServesInOrder (W.running name) }
    ensures taken { (name : _) → TakesAll (W.running name) }
    // Shape, fault, flash words, defect, and whether interrupts are held.
    ensures board { (name : _) → KeepsBoard (W.running name) }
{}

/// A request waits 0, or less than the length of the attempt that it meets. Where attempts are dropped in time, an
/// urgent one that meets an attempt which might be dropped waits at most the words that this attempt writes back.
pub fn waits_are_short<C: Callee, W: Walk<C>>()
    ensures waits { (name : _) → WaitsAreShortIn (W.running name) }
    ensures urgent { DropsInTime W.tests → (name : _) → UrgentWaitsAreShortIn (W.running name) }
{}

/// The operations of a handler are done each once and in order, with one entry each: the reply of the module, or the word of the
/// memory, as the operations before have left them.
pub fn handlers_are_done<C: Callee>()
    ensures { HandlersAreDone C.table }
{}

/// All operations of the application are counted. The module has its mark cleared before the handlers that are due at the start,
/// and what is left at the end meets the module as it then is.
pub fn events_do_their_handlers<C: Callee, W: Walk<C>>()
    ensures counted { (name : _) → CountsOperations (W.running name) }
    ensures opens { (name : _) → OpensWithDue (W.running name) }
    ensures ends { (name : _) → EndsWithLeft (W.running name) }
{}

/// Where no attempt at a slice has more accesses than its sequence, none that an event makes has more than the stated length.
pub fn attempts_are_within<C: Callee, W: Walk<C>>()
    ensures { AttemptsAreWithin W.tests → (name : _) → MakesShortAttempts (W.running name) }
{}

/// The entries of 16 requests with 8 operations each are at most 144.
pub fn an_event_has_room()
    ensures { AnEventHasRoom }
{}
