//! How a running call is taken.

ghost use Rattle.std.specs.Prelude.{◌≡◌};
ghost use Rattle.mt_fls.specs.Walks.{reply_by};

use mt_window::{Refusal, Reply};

/// How a running call is taken, by the state just after boundary 0: it is refused, tests nothing, or tests slices.
#[derive(Clone, Copy, Debug, PartialEq, Eq)]
pub(crate) enum Taken {
    Refused(Refusal),
    Rests,
    Runs,
}

/// The reply, where so many test accesses were made.
pub(crate) fn reply_by(taken: Taken, made: u32) -> Reply
    ensures { result ≡ reply_by taken made }
{
    match taken {
        Taken::Refused(why) => Reply::Refused(why),
        Taken::Rests => Reply::Ran(0),
        Taken::Runs => Reply::Ran(made),
    }
}
