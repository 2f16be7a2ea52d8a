//! The top call.

ghost use Rattle.std.specs.Prelude.{◌≡◌, Option, Some};
ghost use Rattle.mt_fault.specs.declared.fault.Fault.{Fault as MemoryFault};
ghost use Rattle.mt_replay.specs.declared.form.Asked.{Asked};
ghost use Rattle.mt_replay.specs.Changes.{change};
ghost use Rattle.mt_replay.specs.Locate.{LocatingIsExact};
ghost use Rattle.mt_replay.specs.Promises.{AreServedInTime, LeavesNoTrace, RaisesNoFalseAlarm, FindsFaults, GivesEvidence, TellsLeastTicks};
ghost use Rattle.mt_replay.specs.Replay.{form_named, soak_of, soak_named, ask_of, ask_named, form_of, Replays, StatusCaused, LeavesBoard, IsLeftFree, Completes};

use crate::form::{Ask, Asked, Form};
use crate::job::{replay_job, tell};
use crate::locate::locate_job;
use crate::soak::soak_job;
use crate::status::Status;
use crate::verify::verify_job;
use mt_conf::accepted_is_taken;
use mt_cut::longest_runs_are_least;
use mt_gen::{job_config_is_accepted, scripts_are_accepted};
use mt_laws::{
    memory_is_plain, no_false_alarm_of_fls, no_false_alarm_of_ram, ok_is_evidence,
    passes_find_faults, requests_are_served_in_time, tests_leave_no_trace,
};
use mt_locate::{explaining_is_tested, faults_are_listed_once, faults_of_the_slice_are_listed};
use mt_port::{Bench, Sink, Source};
use mt_text::{number_of, reading_is_spelling, spelled_lines_are_accepted};
use std::alloc::Global;

// What a word asks for.
fn form_named(word: &[u8]) -> Option<Asked>
    ensures { result ≡ form_named word.now }
{
    if word == b"run".as_slice() {
        return Some(Asked::Job(Form::Run));
    }
    if word == b"check".as_slice() {
        return Some(Asked::Job(Form::Check));
    }
    if word == b"fmt".as_slice() {
        return Some(Asked::Job(Form::Format));
    }
    if word == b"migrate".as_slice() {
        return Some(Asked::Job(Form::Migrate));
    }
    if word == b"locate".as_slice() {
        return Some(Asked::Locate);
    }
    if word == b"verify".as_slice() {
        return Some(Asked::Verify);
    }
    None
}

// The script with a number, where it is one.
fn soak_of(number: Option<u32>) -> Option<Asked>
    ensures { result ≡ soak_of number }
{
    Some(Asked::Soak(number?))
}

// What a word and a number ask for.
fn soak_named(word: &[u8], number: &[u8]) -> Option<Asked>
    ensures { result ≡ soak_named word.now number.now }
{
    if word == b"soak".as_slice() {
        return soak_of(number_of(number));
    }
    None
}

// A set, a budget and a wait, where all three are numbers.
fn ask_of(set: Option<u32>, budget: Option<u32>, wait: Option<u32>) -> Option<Asked>
    ensures { result ≡ ask_of set budget wait }
{
    Some(Asked::Job(Form::Cut(Ask {
        set: set?,
        budget: budget?,
        wait: wait?,
    })))
}

// What a word and three numbers ask for.
fn ask_named(word: &[u8], set: &[u8], budget: &[u8], wait: &[u8]) -> Option<Asked>
    ensures { result ≡ ask_named word.now set.now budget.now wait.now }
{
    if word == b"cut".as_slice() {
        return ask_of(number_of(set), number_of(budget), number_of(wait));
    }
    None
}

fn form_of(words: &[String]) -> Option<Asked>
    ensures { result ≡ form_of words.now }
{
    match words {
        [word] => form_named(word.as_bytes()),
        [word, number] => soak_named(word.as_bytes(), number.as_bytes()),
        [word, set, budget, wait] => ask_named(
            word.as_bytes(),
            set.as_bytes(),
            budget.as_bytes(),
            wait.as_bytes(),
        ),
        _ => None,
    }
}

// What is promised of every replay.
fn promise()
    ensures latency { (defect : Option MemoryFault) → AreServedInTime defect }
    ensures transparent { (defect : Option MemoryFault) → LeavesNoTrace defect }
    ensures calm { (defect : Option MemoryFault) → RaisesNoFalseAlarm defect }
    ensures detects { (defect : Option MemoryFault) → FindsFaults defect }
    ensures evidence { (defect : Option MemoryFault) → GivesEvidence defect }
{
    // Lines that are read are accepted, and so are generated ones and configurations.
    reading_is_spelling();
    spelled_lines_are_accepted();
    scripts_are_accepted();
    job_config_is_accepted();
    accepted_is_taken();
    requests_are_served_in_time();
    tests_leave_no_trace();
    memory_is_plain();
    no_false_alarm_of_ram();
    no_false_alarm_of_fls();
    passes_find_faults();
    ok_is_evidence();
}

// What is promised of the forms that list faults and cut passes.
fn promise_of_tables()
    ensures exact { LocatingIsExact }
    ensures least { (defect : Option MemoryFault) → TellsLeastTicks defect }
{
    longest_runs_are_least();
    faults_of_the_slice_are_listed();
    explaining_is_tested();
    faults_are_listed_once();
}

// Does what is asked for.
fn answer<S: Source, K: Sink, B: Bench>(
    alloc: Global,
    asked: Asked,
    source: &mut S,
    sink: &mut K,
    board: &mut B,
) -> Status
    ensures gives { Replays (Some asked) result (B.state board.old).defect (B.state board.old)
        (B.state board.new) (S.faults source.old) (S.faults source.new) (K.faults sink.old) (K.faults sink.new)
        (change (S.left source.old) (S.left source.new)
        (K.held sink.old) (K.held sink.new) (B.tape board.old) (B.tape board.new)) }
    ensures cause { StatusCaused result (S.faults source.old) (S.faults source.new) (K.faults sink.old)
        (K.faults sink.new) }
    ensures board { LeavesBoard (Some asked) (B.state board.old) (B.state board.new) (B.tape board.old) (B.tape board.new) }
    ensures free { IsLeftFree (B.state board.old) (B.state board.new) }
    ensures complete { Completes (Some asked) result (B.state board.old).defect (S.left source.old)
        (S.faults source.old) (S.faults source.new) (K.faults sink.old) (K.faults sink.new) }
{
    match asked {
        Asked::Job(form) => replay_job(alloc, form, source, sink, board),
        Asked::Locate => locate_job(alloc, source, sink),
        Asked::Verify => verify_job(alloc, source, sink, board),
        Asked::Soak(number) => soak_job(alloc, number, sink, board),
    }
}

/// Does what the words after the program's name ask for: `run` reads a job from the source, replays it on the board and
/// writes its trace to the sink; `check` reads a job and writes the closing line alone; `fmt` reads a job and writes it
/// in canonical form, without a closing line; `migrate` does so with a configuration of version 2; `cut S T L` reads a job
/// and writes the fewest ticks in which a pass over its set S may be cut with at most T accesses per tick, and the greatest
/// slice for which no request waits longer than L accesses; `locate` reads a configuration, a slice and what was missed
/// there, and writes the single faults that explain it; `verify` reads a configuration, a script and a text, replays the
/// script on the board, and writes whether the text is its trace; `soak N` reads nothing, replays the generated script with
/// the number N on the board, and writes its sums. All other words answer `Usage`. Memory is taken before the first byte is
/// written.
pub fn replay<S: Source, K: Sink, B: Bench>(
    alloc: Global,
    words: &[String],
    source: &mut S,
    sink: &mut K,
    board: &mut B,
) -> Status
    ensures gives { Replays (form_of words.now) result (B.state board.old).defect (B.state board.old)
        (B.state board.new) (S.faults source.old) (S.faults source.new) (K.faults sink.old) (K.faults sink.new)
        (change (S.left source.old) (S.left source.new)
        (K.held sink.old) (K.held sink.new) (B.tape board.old) (B.tape board.new)) }
    ensures cause { StatusCaused result (S.faults source.old) (S.faults source.new) (K.faults sink.old)
        (K.faults sink.new) }
    // Only a replay uses the board, whatever becomes of the streams; behind a power-up it is left free.
    ensures board { LeavesBoard (form_of words.now) (B.state board.old) (B.state board.new) (B.tape board.old)
        (B.tape board.new) }
    ensures free { IsLeftFree (B.state board.old) (B.state board.new) }
    // Where neither stream failed, the answer is the status that the input gives, or no memory was found.
    ensures complete { Completes (form_of words.now) result (B.state board.old).defect (S.left source.old)
        (S.faults source.old) (S.faults source.new) (K.faults sink.old) (K.faults sink.new) }
    // Whatever bytes the job has, each request of its replay is served where its offset says; it waits 0, or less than the
    // length of the attempt that it meets; and an urgent one at most the words of the slice, where the attempt may be dropped.
    ensures latency { AreServedInTime (B.state board.old).defect }
    // Of each job that is run or verified, and of each generated one: where the board has no fault at the start and no line
    // injects one, its replay comes to the same where no test touches a word of the application, but that each sequence that has ended leaves the fill of a
    // destructive block: the same answers, waits and results, and the same words after each line. Each answer of the
    // application is that of a plain memory on which its operations are done in script order, with such fills between them.
    ensures transparent { LeavesNoTrace (B.state board.old).defect }
    // Of the same jobs: where the board has no fault at the start and no line injects one, no block of RamTst is ever NOT_OK,
    // and no trace line of RamTst reports a failure. While each flash word equals its copy after every line, FlsTst
    // reports none.
    ensures calm { RaisesNoFalseAlarm (B.state board.old).defect }
    // Whatever bytes the input has, `locate` lists a fault exactly where it lies inside the slice and explains what was missed
    // there, and each once.
    ensures exact { LocatingIsExact }
    // Whatever bytes the job has, no cut under the budget has fewer ticks than `cut` tells.
    ensures least { TellsLeastTicks (B.state board.old).defect }
    // Of the same jobs: where a pass of its replay runs undisturbed over a fault that its algorithm catches, the block of its
    // slice is NOT_OK behind it.
    ensures detects { FindsFaults (B.state board.old).defect }
    // Of the same jobs: from where RamTst is about to test a block, the block does not become OK, and no call is told that it
    // is, while a fault that is caught in one of its slices stays and the results are not reset.
    ensures evidence { GivesEvidence (B.state board.old).defect }
{
    promise();
    promise_of_tables();
    match form_of(words) {
        Some(asked) => answer(alloc, asked, source, sink, board),
        None => tell(sink, b"usage\n", Status::Usage),
    }
}
