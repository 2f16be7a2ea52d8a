//! What one line does.

ghost use Rattle.std.specs.Prelude.{◌≡◌, [], ◌∷◌, Some};
ghost use Rattle.mt_port.specs.Board.{Board};
ghost use Rattle.mt_text.specs.Accepted.{IsAccepted as IsAcceptedLine};
ghost use Rattle.mt_fault.specs.Placement.{IsWellPlaced};
ghost use Rattle.mt_window.specs.Serving.{given};
ghost use Rattle.mt_machine.specs.Machine.{Machine, machine, IsReady, running, begun};
ghost use Rattle.mt_machine.specs.Inner.Events.{AnswerGives, AreReady, Does, Injects, IsFree, driven};

use crate::driven::{Called, Driven, FlsRunning, Running};
use crate::modules::Modules;
use arrayvec::ArrayVec;
use mt_fault::Fault;
use mt_port::{Answer, Bench, Request};
use mt_text::{Event, Line};
use mt_window::{EventLog, Reply, Value};

// The reply to an operation of the application.
fn reply_of(answer: Answer) -> Reply
    ensures { result ≡ given answer }
{
    match answer {
        Answer::Done => Reply::Done,
        Answer::Word(word) => Reply::Value(Value::Word(word)),
    }
}

// An injection.
fn inject<B: Bench>(board: &mut B, fault: Fault) -> Reply
    requires { IsWellPlaced (B.state board.old).shape.width (B.state board.old).shape.ram fault }
    ensures state { Injects (B.state board.old) (B.state board.new) fault result }
    ensures tape { B.tape board.new ≡ B.tape board.old }
{
    match board.inject(fault) {
        Ok(()) => Reply::Done,
        Err(_) => Reply::Present,
    }
}

// A call that runs tests, as one event with these requests.
fn run_tests<M: Driven, B: Bench>(
    module: &mut M,
    board: &mut B,
    call: M::Running,
    requests: &mut ArrayVec<Request, 16>,
    log: &mut EventLog,
) -> Reply
    requires free { IsFree (B.state board.old) (M.shape module.old) }
    requires empty { log.old ≡ [] }
    requires requests { AreReady M.kind (B.state board.old).shape requests.old.items }
    ensures does { (with : Board → M → Machine)
        → Does (running with ((M.calls).events call) (begun (B.state board.old) module.old requests.old.items))
        (with (B.state board.new) module.new) result log.new (B.tape board.old) (B.tape board.new) }
    ensures free { IsFree (B.state board.new) (M.shape module.old) }
    ensures setting { M.setting module.new ≡ M.setting module.old }
{
    board.begin_event(requests);
    let reply = module.run(board, call, log);
    board.end_event();
    reply
}

// A call on a line with these requests.
fn answer_call<M: Driven, B: Bench>(
    module: &mut M,
    board: &mut B,
    call: M::Call,
    requests: &mut ArrayVec<Request, 16>,
    log: &mut EventLog,
) -> Reply
    requires free { IsFree (B.state board.old) (M.shape module.old) }
    requires empty { log.old ≡ [] }
    requires requests { (r : M.Running) → (M.calls).running call ≡ Some r
        → AreReady M.kind (B.state board.old).shape requests.old.items }
    ensures does { (with : Board → M → Machine)
        → Does (driven M.calls with (B.state board.old) module.old call ((M.calls).running call) requests.old.items)
        (with (B.state board.new) module.new) result log.new (B.tape board.old) (B.tape board.new) }
    ensures free { IsFree (B.state board.new) (M.shape module.old) }
    ensures setting { M.setting module.new ≡ M.setting module.old }
{
    match module.take(call) {
        Called::Replied(reply) => reply,
        Called::Runs(running) => run_tests(module, board, running, requests, log),
    }
}

/// Does what an accepted line asks for. What its requests make is entered in the log, and the line's own reply is
/// answered; a line that does nothing has none. A running event takes the line's requests.
#[tactic(auto, unfolding(crate::specs::Machine::step))]
pub fn perform<B: Bench>(
    modules: &mut Modules,
    board: &mut B,
    line: &mut Line,
    log: &mut EventLog,
) -> Option<Reply>
    requires ready { IsReady (B.state board.old).shape (machine (B.state board.old) modules.old) }
    requires line { IsAcceptedLine (B.state board.old).shape line.old }
    requires empty { log.old ≡ [] }
    ensures gives { AnswerGives result (machine (B.state board.old) modules.old)
        (machine (B.state board.new) modules.new) line.old log.new (B.tape board.old) (B.tape board.new) }
    ensures ready { IsReady (B.state board.old).shape (machine (B.state board.new) modules.new) }
{
    let requests = &mut line.requests;
    match line.event {
        Event::Nothing => None,
        Event::TickRam => Some(run_tests(&mut modules.ram, board, Running::Tick, requests, log)),
        Event::TickFls => Some(run_tests(&mut modules.fls, board, FlsRunning::Tick, requests, log)),
        Event::Ram(call) => Some(answer_call(&mut modules.ram, board, call, requests, log)),
        Event::Fls(call) => Some(answer_call(&mut modules.fls, board, call, requests, log)),
        Event::App(op) => Some(reply_of(board.app(&op))),
        Event::Inject(fault) => Some(inject(board, fault)),
        Event::Heal => {
            board.heal();
            Some(Reply::Done)
        }
        Event::Burn { addr, word } => {
            board.burn(addr, word);
            Some(Reply::Done)
        }
        Event::Flip(at) => {
            board.flip(at);
            Some(Reply::Done)
        }
    }
}
