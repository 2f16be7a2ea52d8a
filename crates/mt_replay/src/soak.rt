//! The form `soak`: the generated script with a number is replayed, and its sums are written.

ghost use Rattle.std.specs.Prelude.{◌≡◌, ◌≢◌, ◌≤◌, length};
ghost use Rattle.mt_text.specs.Accepted.{IsAccepted as IsAcceptedLine};
ghost use Rattle.mt_ram.specs.Results.{overall};
ghost use Rattle.mt_gen.specs.Script.{job_shape, script};
ghost use Rattle.mt_machine.specs.Machine.{machine, step, IsReady};
ghost use Rattle.mt_replay.specs.Inner.Runs.{outputs};
ghost use Rattle.mt_replay.specs.Inner.Soaks.{entered, with_line, HasRoom, IsLittleMore, Adds, Sums};
ghost use Rattle.mt_replay.specs.Replay.{SoakGives, IsLeftFree};

use crate::job::{power_up, tell};
use crate::status::Status;
use crate::text::summary_text;
use mt_gen::{
    ScriptLines, Summary, job_config, lines_are_of_forms, scripts_are_accepted,
    scripts_have_20000_lines, summaries_are_sums,
};
use mt_machine::{Modules, lines_keep_the_board, perform};
use mt_port::{Bench, Sink};
use mt_ram::{Ram, State};
use mt_text::Line;
use mt_window::{Entry, EventLog, Reply, TestResult, Value};
use std::alloc::Global;

// Adds up what one line more enters: what its requests made, and its own reply, where it has one.
fn add_line(summary: &mut Summary, log: &[Entry], reply: Option<Reply>)
    requires room { HasRoom summary.old }
    requires few { length log.now ≤ 256 }
    ensures sums { summary.new ≡ with_line summary.old (entered log.now reply) }
    ensures little { IsLittleMore summary.old summary.new }
{
    summary.lines += 1;
    match reply {
        None => {}
        Some(reply) => {
            summary.add_all(log);
            summary.add_all(&[Entry::Own(reply)]);
        }
    }
}

// Does what an accepted line asks for, and adds up what it enters.
fn soak_line<B: Bench>(
    modules: &mut Modules,
    board: &mut B,
    line: &mut Line,
    log: &mut EventLog,
    summary: &mut Summary,
)
    requires ready { IsReady (B.state board.old).shape (machine (B.state board.old) modules.old) }
    requires line { IsAcceptedLine (B.state board.old).shape line.old }
    requires room { HasRoom summary.old }
    ensures ready { IsReady (B.state board.old).shape (machine (B.state board.new) modules.new) }
    ensures adds { Adds (step (machine (B.state board.old) modules.old) line.old)
        (machine (B.state board.new) modules.new) summary.old summary.new (B.tape board.old) (B.tape board.new) }
    ensures little { IsLittleMore summary.old summary.new }
    ensures defect { (B.state board.new).defect ≡ (B.state board.old).defect }
{
    lines_keep_the_board();
    log.clear();
    let reply = perform(modules, board, line, log);
    add_line(summary, log.entries(), reply);
}

// Replays the lines of the script with a number, one after another. Answers their sums.
fn soak_script<B: Bench>(modules: &mut Modules, board: &mut B, number: u32) -> Summary
    requires { IsReady job_shape (machine (B.state board.old) modules.old) }
    ensures sums { Sums (machine (B.state board.old) modules.old) (machine (B.state board.new) modules.new)
        (script number) result (B.tape board.old) (B.tape board.new) }
    ensures ready { IsReady job_shape (machine (B.state board.new) modules.new) }
    ensures defect { (B.state board.new).defect ≡ (B.state board.old).defect }
{
    scripts_have_20000_lines();
    scripts_are_accepted();
    summaries_are_sums();
    let mut lines = ScriptLines::new(number);
    let mut line = Line::new();
    let mut log = EventLog::new();
    let mut summary = Summary::new();
    while lines.take(&mut line) {
        soak_line(modules, board, &mut line, &mut log, &mut summary);
    }
    summary
}

// The overall result of a module that is initialized.
fn overall_of(ram: &Ram) -> TestResult
    requires { ram.now.state ≢ State.Uninit }
    ensures { result ≡ overall ram.now.results }
{
    match ram.get_test_result() {
        Reply::Value(Value::Result(result)) => result,
        _ => unreachable!(),
    }
}

/// Replays the generated script with a number on the board, and writes its sums. Nothing is read.
pub fn soak_job<K: Sink, B: Bench>(
    alloc: Global,
    number: u32,
    sink: &mut K,
    board: &mut B,
) -> Status
    ensures gives { SoakGives result number (B.state board.old).defect (B.state board.old) (B.state board.new)
        (K.faults sink.old) (K.faults sink.new)
        (outputs (K.held sink.old) (K.held sink.new) (B.tape board.old) (B.tape board.new)) }
    ensures board { (B.state board.new).defect ≡ (B.state board.old).defect }
    ensures free { IsLeftFree (B.state board.old) (B.state board.new) }
{
    lines_are_of_forms();
    let Ok(config) = job_config(alloc) else {
        return Status::NoMemory;
    };
    match power_up(alloc, config, board) {
        Ok(mut modules) => {
            let summary = soak_script(&mut modules, board, number);
            let text = summary_text(&summary, overall_of(&modules.ram));
            tell(sink, &text, Status::Done)
        }
        Err(_) => Status::NoMemory,
    }
}
