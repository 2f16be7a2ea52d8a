//! One running event, for any module and any of its running calls.

ghost use Rattle.std.specs.Prelude.{◌≡◌};
ghost use Rattle.mt_port.specs.Board.{Logs};
ghost use Rattle.mt_window.specs.Serving.{scene, IsReady, IsIdle};
ghost use Rattle.mt_window.specs.Events.{event, event_touches};

use crate::log::EventLog;
use crate::reply::Reply;
use crate::serve::{Callee, serve_due, serve_left};
use crate::walk::{Walk, run_slices};
use mt_port::Port;

/// One running event: boundary 0, the slices of the call with a boundary after each attempt, and the requests that are left.
pub fn run_event<C: Callee, W: Walk<C> + Drop, P: Port>(
    name: &W::Name,
    callee: &mut C,
    port: &mut P,
    log: &mut EventLog,
) -> Reply
    requires ready { IsReady C.kind (P.state port.old) log.old }
    requires shape { (P.state port.old).shape ≡ W.shape callee.old }
    requires start { (P.state port.old).count ≡ 0 }
    ensures event { record { after = scene (P.state port.new) callee.new log.new; reply = result }
        ≡ event (W.running name.now) (scene (P.state port.old) callee.old log.old) }
    ensures tape { Logs (P.tape port.old) (P.tape port.new)
        (event_touches (W.running name.now) (scene (P.state port.old) callee.old log.old)) }
    ensures setting { C.setting callee.new ≡ C.setting callee.old }
    ensures shape { (P.state port.new).shape ≡ (P.state port.old).shape }
    ensures idle { IsIdle (P.state port.new) }
{
    W::clear(name, callee);
    serve_due(port, callee, log);
    let mut walk = W::enter(name, callee);
    run_slices(&mut walk, callee, port, log);
    walk.leave(callee);
    let made = port.made();
    serve_left(port, callee, log);
    walk.reply(made)
}
