//! The serving of requests.

ghost use Rattle.std.specs.Prelude.{◌≡◌, ◌<◌, ◌≤◌, ◌+◌, ◌-◌, ◌^◌, ℕ, List, [], ◌∷◌, ◌++◌, length, All, false};
ghost use Rattle.mt_port.specs.declared.request.Module.{Module};
ghost use Rattle.mt_port.specs.declared.request.HandlerCall.{HandlerCall};
ghost use Rattle.mt_window.specs.declared.reply.Reply.{Reply};
ghost use Rattle.mt_window.specs.Calls.{module_of};
ghost use Rattle.mt_window.specs.Serving.{Table, Scene, scene, given, IsSoundHandlerOp, IsReady, operated, operated_all, begun, serve_due, serve_left};

use crate::log::{Entry, EventLog};
use crate::reply::{Reply, Value};
use mt_port::{Answer, Due, HandlerCall, HandlerOp, Port};

/// A module as a handler sees it. Its setting and its state are what contracts see of it.
pub trait Callee {
    /// Which module it is.
    ghost kind: { Module };

    /// The reply and the next state that its table gives for a state and a call.
    ghost table: { Table Self };

    /// Its setting, which no call changes.
    ghost Setting: { Type 0 };

    ghost setting: { Self → Setting };

    /// One call of a handler.
    fn call(&mut self, call: HandlerCall) -> Reply
        requires { module_of call ≡ kind }
        ensures reply { result ≡ (table).reply self.old call }
        ensures next { self.new ≡ (table).next self.old call }
        ensures setting { setting self.new ≡ setting self.old };

    /// The table leaves the setting.
    ghost keeps_setting: { (c : Self) (call : HandlerCall) → setting ((table).next c call) ≡ setting c };
}

// The reply to an operation of the application.
fn reply_to(answer: Answer) -> Reply
    ensures { result ≡ given answer }
{
    match answer {
        Answer::Done => Reply::Done,
        Answer::Word(word) => Reply::Value(Value::Word(word)),
    }
}

// One operation of a handler.
fn operate<P: Port, C: Callee>(port: &mut P, callee: &mut C, log: &mut EventLog, op: HandlerOp)
    requires free { (P.state port.old).held ≡ false }
    requires sound { IsSoundHandlerOp (P.state port.old).shape C.kind op }
    requires room { length log.old < 256 }
    ensures scene { scene (P.state port.new) callee.new log.new
        ≡ operated C.table (scene (P.state port.old) callee.old log.old) op }
    ensures setting { C.setting callee.new ≡ C.setting callee.old }
    ensures tape { P.tape port.new ≡ P.tape port.old }
{
    match op {
        HandlerOp::App(op) => {
            let answer = port.app(&op);
            log.add(Entry::Inner(reply_to(answer)));
        }
        HandlerOp::Call(call) => {
            let reply = callee.call(call);
            log.add(Entry::Inner(reply));
        }
    }
}

// All operations of a handler.
fn operate_all<P: Port, C: Callee>(
    port: &mut P,
    callee: &mut C,
    log: &mut EventLog,
    ops: &[HandlerOp],
)
    requires free { (P.state port.old).held ≡ false }
    requires sound { All (IsSoundHandlerOp (P.state port.old).shape C.kind) ops.now }
    requires room { length log.old + length ops.now ≤ 256 }
    ensures scene { scene (P.state port.new) callee.new log.new
        ≡ operated_all C.table ops.now (scene (P.state port.old) callee.old log.old) }
    ensures setting { C.setting callee.new ≡ C.setting callee.old }
    ensures tape { P.tape port.new ≡ P.tape port.old }
{
    for op in ops {
        operate(port, callee, log, *op);
    }
}

// One request that is handed out.
fn serve_one<P: Port, C: Callee>(
    port: &mut P,
    callee: &mut C,
    log: &mut EventLog,
    due: &Due,
    wait: u32,
)
    requires free { (P.state port.old).held ≡ false }
    requires sound { All (IsSoundHandlerOp (P.state port.old).shape C.kind) due.now.request.ops.items }
    requires room { length log.old + 1 + length due.now.request.ops.items ≤ 256 }
    ensures scene { scene (P.state port.new) callee.new log.new
        ≡ operated_all C.table due.now.request.ops.items (begun due.now wait (P.state port.old) callee.old log.old) }
    ensures setting { C.setting callee.new ≡ C.setting callee.old }
    ensures tape { P.tape port.new ≡ P.tape port.old }
{
    log.add(Entry::Served {
        number: due.number,
        at: due.at,
        wait,
    });
    operate_all(port, callee, log, &due.request.ops);
}

/// Serves all requests that are due, in their order: each is entered with its number, the count of test accesses and
/// its wait, and then the reply to each of its operations.
pub fn serve_due<P: Port, C: Callee>(port: &mut P, callee: &mut C, log: &mut EventLog)
    requires { IsReady C.kind (P.state port.old) log.old }
    ensures scene { scene (P.state port.new) callee.new log.new
        ≡ serve_due C.table (scene (P.state port.old) callee.old log.old) }
    ensures ready { IsReady C.kind (P.state port.new) log.new }
    ensures setting { C.setting callee.new ≡ C.setting callee.old }
    ensures tape { P.tape port.new ≡ P.tape port.old }
{
    while let Some(due) = port.take_due() {
        let wait = due.at - due.request.offset;
        serve_one(port, callee, log, &due, wait);
    }
}

/// Serves all requests that are left, in their order, with no wait.
pub fn serve_left<P: Port, C: Callee>(port: &mut P, callee: &mut C, log: &mut EventLog)
    requires { IsReady C.kind (P.state port.old) log.old }
    ensures scene { scene (P.state port.new) callee.new log.new
        ≡ serve_left C.table (scene (P.state port.old) callee.old log.old) }
    ensures none { (P.state port.new).left ≡ [] }
    ensures ready { IsReady C.kind (P.state port.new) log.new }
    ensures setting { C.setting callee.new ≡ C.setting callee.old }
    ensures tape { P.tape port.new ≡ P.tape port.old }
{
    while let Some(due) = port.take_left() {
        serve_one(port, callee, log, &due, 0);
    }
}
