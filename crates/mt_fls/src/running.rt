//! The running calls: each is one event.

ghost use Rattle.std.specs.Prelude.{◌≡◌, false, []};
ghost use Rattle.mt_port.specs.declared.request.Module.TheVariants.{FlsTst as Itself};
ghost use Rattle.mt_port.specs.Board.{Logs};
ghost use Rattle.mt_window.specs.Serving.{scene, IsReady};
ghost use Rattle.mt_window.specs.Events.{event, event_touches};
ghost use Rattle.mt_fls.specs.Event.{ticking, foreground_test};

use crate::block_walk::BlockWalk;
use crate::pass_walk::PassWalk;
use crate::state::Fls;
use mt_port::Port;
use mt_window::{EventLog, Reply, run_event};

impl Fls {
    /// MainFunction: compares the next group of a running pass. In INIT a pass begins first, and with it an interval. The
    /// requests are served in any case.
    pub fn tick<P: Port>(&mut self, port: &mut P, log: &mut EventLog) -> Reply
        requires ready { IsReady Itself (P.state port.old) log.old }
        requires shape { (P.state port.old).shape ≡ self.old.setting.shape }
        requires start { (P.state port.old).count ≡ 0 }
        ensures event { record { after = scene (P.state port.new) self.new log.new; reply = result }
            ≡ event ticking (scene (P.state port.old) self.old log.old) }
        ensures tape { Logs (P.tape port.old) (P.tape port.new)
            (event_touches ticking (scene (P.state port.old) self.old log.old)) }
        ensures setting { self.new.setting ≡ self.old.setting }
        ensures shape { (P.state port.new).shape ≡ (P.state port.old).shape }
        ensures none { (P.state port.new).left ≡ [] }
        ensures free { (P.state port.new).held ≡ false }
    {
        run_event::<Fls, PassWalk, P>(&(), self, port, log)
    }

    /// StartFgnd: compares one foreground block once, whole, by its number, counted from 0. Afterwards the module goes on
    /// as it was just after boundary 0. The requests are served in any case.
    pub fn start_fgnd<P: Port>(&mut self, port: &mut P, log: &mut EventLog, block: u32) -> Reply
        requires ready { IsReady Itself (P.state port.old) log.old }
        requires shape { (P.state port.old).shape ≡ self.old.setting.shape }
        requires start { (P.state port.old).count ≡ 0 }
        ensures event { record { after = scene (P.state port.new) self.new log.new; reply = result }
            ≡ event (foreground_test block) (scene (P.state port.old) self.old log.old) }
        ensures tape { Logs (P.tape port.old) (P.tape port.new)
            (event_touches (foreground_test block) (scene (P.state port.old) self.old log.old)) }
        ensures setting { self.new.setting ≡ self.old.setting }
        ensures shape { (P.state port.new).shape ≡ (P.state port.old).shape }
        ensures none { (P.state port.new).left ≡ [] }
        ensures free { (P.state port.new).held ≡ false }
    {
        run_event::<Fls, BlockWalk, P>(&block, self, port, log)
    }
}
