//! The running calls: each is one event.

ghost use Rattle.std.specs.Prelude.{◌≡◌, false, []};
ghost use Rattle.mt_port.specs.declared.request.Module.TheVariants.{RamTst as Itself};
ghost use Rattle.mt_port.specs.Board.{Logs};
ghost use Rattle.mt_window.specs.Serving.{scene, IsReady};
ghost use Rattle.mt_window.specs.Events.{event, event_touches};
ghost use Rattle.mt_ram.specs.Event.{ticking, full_test, partial_test};
ghost use Rattle.mt_ram.specs.Walks.{decided};

use crate::pass_walk::PassWalk;
use crate::state::{Ram, State};
use crate::test_walk::{Test, TestWalk};
use mt_port::Port;
use mt_window::{EventLog, Refusal, Reply, run_event};

/// What the module decides of a running call just after boundary 0.
#[derive(Clone, Copy, Debug, PartialEq, Eq)]
pub enum Decision {
    Refuse(Refusal),
    Rest,
    Run,
}

impl Decision {
    /// The reply, after so many test accesses.
    pub(crate) fn reply(self, made: u32) -> Reply
        ensures { result ≡ decided self made }
    {
        match self {
            Decision::Refuse(why) => Reply::Refused(why),
            Decision::Rest => Reply::Ran(0),
            Decision::Run => Reply::Ran(made),
        }
    }
}

/// A decision, and the state to which the module goes back after the last boundary; none where it stays as it is.
#[derive(Clone, Copy, Debug, PartialEq, Eq)]
pub struct Entered {
    pub decision: Decision,
    pub back: Option<State>,
}

impl Ram {
    // A running event begins.
    pub(crate) fn begin(&mut self)
        ensures { self.new ≡ record self.old { mark = false } }
    {
        self.mark = false;
    }

    /// MainFunction: tests the next group of a running pass. The requests are served in any case.
    pub fn tick<P: Port>(&mut self, port: &mut P, log: &mut EventLog) -> Reply
        requires ready { IsReady Itself (P.state port.old) log.old }
        requires shape { (P.state port.old).shape ≡ self.old.setting.shape }
        requires start { (P.state port.old).count ≡ 0 }
        ensures event { record { after = scene (P.state port.new) self.new log.new; reply = result }
            ≡ event ticking (scene (P.state port.old) self.old log.old) }
        ensures tape { Logs (P.tape port.old) (P.tape port.new)
            (event_touches ticking (scene (P.state port.old) self.old log.old)) }
        ensures setting { self.new.setting ≡ self.old.setting }
        ensures shape { (P.state port.new).shape ≡ (P.state port.old).shape }
        ensures none { (P.state port.new).left ≡ [] }
        ensures free { (P.state port.new).held ≡ false }
    {
        run_event::<Ram, PassWalk, P>(&(), self, port, log)
    }

    /// RunFullTest: tests every block of the selected set once, in order, where the module is stopped. The requests are
    /// served in any case.
    pub fn run_full<P: Port>(&mut self, port: &mut P, log: &mut EventLog) -> Reply
        requires ready { IsReady Itself (P.state port.old) log.old }
        requires shape { (P.state port.old).shape ≡ self.old.setting.shape }
        requires start { (P.state port.old).count ≡ 0 }
        ensures event { record { after = scene (P.state port.new) self.new log.new; reply = result }
            ≡ event full_test (scene (P.state port.old) self.old log.old) }
        ensures tape { Logs (P.tape port.old) (P.tape port.new)
            (event_touches full_test (scene (P.state port.old) self.old log.old)) }
        ensures setting { self.new.setting ≡ self.old.setting }
        ensures shape { (P.state port.new).shape ≡ (P.state port.old).shape }
        ensures none { (P.state port.new).left ≡ [] }
        ensures free { (P.state port.new).held ≡ false }
    {
        run_event::<Ram, TestWalk, P>(&Test::Full, self, port, log)
    }

    /// RunPartialTest: tests one block of the selected set once, by its number, counted from 0, where the module is
    /// stopped or suspended. The requests are served in any case.
    pub fn run_partial<P: Port>(&mut self, port: &mut P, log: &mut EventLog, block: u32) -> Reply
        requires ready { IsReady Itself (P.state port.old) log.old }
        requires shape { (P.state port.old).shape ≡ self.old.setting.shape }
        requires start { (P.state port.old).count ≡ 0 }
        ensures event { record { after = scene (P.state port.new) self.new log.new; reply = result }
            ≡ event (partial_test block) (scene (P.state port.old) self.old log.old) }
        ensures tape { Logs (P.tape port.old) (P.tape port.new)
            (event_touches (partial_test block) (scene (P.state port.old) self.old log.old)) }
        ensures setting { self.new.setting ≡ self.old.setting }
        ensures shape { (P.state port.new).shape ≡ (P.state port.old).shape }
        ensures none { (P.state port.new).left ≡ [] }
        ensures free { (P.state port.new).held ≡ false }
    {
        run_event::<Ram, TestWalk, P>(&Test::Block(block), self, port, log)
    }
}
