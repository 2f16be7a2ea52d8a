//! Reads the configuration of a job, and does with its script what a form asks for.

ghost use Rattle.std.specs.Prelude.{◌≡◌, ◌≤◌, ℕ, List, Option, [], OnOk, OnErr, IfOk, IfErr, IfSome, Some, vec_capacity};
ghost use Rattle.std.specs.Io.KnownBytes.{prepend_known, Appends};
ghost use Rattle.mt_port.specs.Causes.{HasCause, Rose};
ghost use Rattle.mt_port.specs.Streams.{WhereTold, AppendsFront};
ghost use Rattle.mt_port.specs.Board.{Board};
ghost use Rattle.mt_port.specs.declared.board.Touch.{Touch};
ghost use Rattle.mt_fault.specs.declared.fault.Fault.{Fault as MemoryFault};
ghost use Rattle.mt_conf.specs.declared.config.Config.{Config};
ghost use Rattle.mt_conf.specs.Accepted.{IsAcceptedConfig};
ghost use Rattle.mt_replay.specs.Input.{Finished, Whole};
ghost use Rattle.mt_cut.specs.Holds.{IsOfAccepted};
ghost use Rattle.mt_machine.specs.Machine.{machine, IsReady, started};
ghost use Rattle.mt_replay.specs.Outcome.{migrated, opening_text, end_status, bad_config, bad_config_text, judged_job, rule_number as number_of_rule};
ghost use Rattle.mt_replay.specs.Changes.{change, UsesBoard};
ghost use Rattle.mt_replay.specs.Inner.Runs.{outputs, IsReadyFor};
ghost use Rattle.mt_replay.specs.Inner.Jobs.{Given, IsFound, HasBehind, IsAcceptedFound, FoundGives, HeadFails, Begins, IsTask, closing_of, task_end, IsBegun, BeginFails};
ghost use Rattle.mt_replay.specs.Replay.{outcomes, JobGives, IsLeftFree, StatusCaused, Told};

use crate::cut::{chosen, write_chosen};
use crate::form::{Form, Task};
use crate::head::{HEAD_ROOM, Head, read_head};
use crate::input::Input;
use crate::refused::{Refused, refused_of, rule_number};
use crate::run::{End, run_script};
use crate::status::Status;
use crate::text::{bad_config_text, done_text, refused_text};
use mt_conf::{Config, ConfigRefusal, read_config, write_config};
use mt_machine::Modules;
use mt_port::{Bench, Failed, Sink, Source, put};
use mt_word::NoMemory;
use std::alloc::{AllocError, Global};

/// Whether script lines may follow the configuration, or the input ended with it.
#[derive(Clone, Copy, Debug, PartialEq, Eq)]
pub enum Follows {
    Lines,
    Nothing,
}

/// What came of reading the configuration: no memory was found; it is refused; or it is accepted.
#[derive(Drop)]
pub enum Found {
    NoMemory,
    Refused(Refused),
    Config(Config, Follows),
}

// The configuration that the bytes before a separator are.
fn found_in(alloc: Global, kept: &[u8], follows: Follows) -> Found
    ensures value { IsFound result kept.now }
    ensures accepted { IsAcceptedFound result }
    ensures follows { HasBehind follows result }
{
    if kept.len() > 65_536 {
        return Found::Refused(Refused::Rule(18));
    }
    match read_config(alloc, kept) {
        Ok(config) => Found::Config(config, follows),
        Err(ConfigRefusal::NoMemory) => Found::NoMemory,
        Err(refusal) => Found::Refused(refused_of(&refusal)),
    }
}

// The refusal of an input without a separator.
fn whole_refused(bytes: &[u8]) -> Refused
    ensures { (given : Given) → judged_job given Finished (Whole bytes.now) ≡ bad_config result }
{
    if bytes.len() > 65_536 {
        Refused::Rule(18)
    } else {
        Refused::Rule(19)
    }
}

/// Reads the configuration.
pub(crate) fn find<S: Source>(
    alloc: Global,
    input: &mut Input,
    source: &mut S,
    kept: &mut Vec<u8>,
) -> Result<Found, Failed>
    requires empty { kept.old.items ≡ [] }
    requires room { HEAD_ROOM ≤ vec_capacity kept.old }
    ensures ok { IfOk result (λ found. WhereTold (prepend_known input.old (S.left source.old))
        (prepend_known input.new (S.left source.new)) (FoundGives found)) }
    ensures accepted { IfOk result IsAcceptedFound }
    ensures err { OnErr result (WhereTold (prepend_known input.old (S.left source.old))
        (prepend_known input.new (S.left source.new)) HeadFails) }
    ensures none { OnErr result (input.new ≡ []) }
    ensures cause { HasCause (S.faults source.old) (S.faults source.new) result }
{
    match read_head(input, source, kept) {
        Ok(Head::Parted) => Ok(found_in(alloc, kept, Follows::Lines)),
        Ok(Head::PartedAtEnd) => Ok(found_in(alloc, kept, Follows::Nothing)),
        Ok(Head::Whole) => Ok(Found::Refused(whole_refused(kept))),
        Ok(Head::TooLong) => Ok(Found::Refused(Refused::Rule(18))),
        Err(failed) => Err(failed),
    }
}

/// Powers the board up for a job. Answers the modules as they begin.
#[tactic(auto, unfolding(mt_port::specs::Board::powered_up))]
pub(crate) fn power_up<B: Bench>(
    alloc: Global,
    config: Config,
    board: &mut B,
) -> Result<Modules, NoMemory>
    requires { IsAcceptedConfig config }
    ensures ok { IfOk result (λ modules. machine (B.state board.new) modules ≡ started config
        (B.state board.old).defect) }
    ensures ready { IfOk result (λ modules. IsReady config.shape (machine (B.state board.new) modules)) }
    ensures tape { OnOk result (B.tape board.new ≡ Some []) }
    ensures err { OnErr result ((B.state board.new ≡ B.state board.old) × (B.tape board.new ≡ B.tape board.old)) }
{
    match board.power_up(alloc, config.shape, config.initial) {
        Ok(()) => Ok(Modules::new(config)),
        Err(no_memory) => Err(no_memory),
    }
}

/// Writes one text. Answers the status, or that the sink failed.
pub(crate) fn tell<K: Sink>(sink: &mut K, text: &[u8], status: Status) -> Status
    ensures { Told result status text.now (K.held sink.old) (K.held sink.new) (K.faults sink.old) (K.faults sink.new) }
{
    match put(sink, text) {
        Ok(()) => status,
        Err(_) => Status::WriteFault,
    }
}

/// Writes the text of a refused configuration.
pub(crate) fn tell_refused<K: Sink>(sink: &mut K, why: &Refused) -> Status
    ensures { Told result (Status.BadConfig (number_of_rule why.now)) (bad_config_text why.now) (K.held sink.old)
        (K.held sink.new) (K.faults sink.old) (K.faults sink.new) }
{
    tell(
        sink,
        &bad_config_text(why),
        Status::BadConfig {
            code: rule_number(why),
        },
    )
}

// Writes what stands behind a whole script.
fn write_closing<K: Sink>(task: &Task, sink: &mut K, count: u32) -> Result<(), Failed>
    requires { IfSome task.now.set IsOfAccepted }
    ensures ok { OnOk result (Appends (K.held sink.old) (K.held sink.new)
        (closing_of task.now.form task.now.set count)) }
    ensures err { OnErr result (AppendsFront (K.held sink.old) (K.held sink.new)
        (closing_of task.now.form task.now.set count)) }
    ensures cause { HasCause (K.faults sink.old) (K.faults sink.new) result }
{
    match task.form {
        Form::Run | Form::Check => put(sink, &done_text(count)),
        Form::Format | Form::Migrate => Ok(()),
        Form::Cut(ask) => write_chosen(sink, &task.set, ask),
    }
}

// Writes how a script ended. Answers the status, or that the sink failed.
fn tell_end<K: Sink>(task: &Task, sink: &mut K, end: End) -> Status
    requires { IfSome task.now.set IsOfAccepted }
    ensures { Told result (end_status end) (task_end task.now end) (K.held sink.old) (K.held sink.new)
        (K.faults sink.old) (K.faults sink.new) }
{
    match end {
        End::Whole(count) => match write_closing(task, sink, count) {
            Ok(()) => Status::Done,
            Err(_) => Status::WriteFault,
        },
        End::Refused { line, code, place } => tell(
            sink,
            &refused_text(line, code, place),
            Status::BadScript { line, code, place },
        ),
        End::Broken => tell(sink, b"read fault\n", Status::ReadFault),
    }
}

// Writes the configuration in canonical form, and the line that ends it.
fn write_opening<K: Sink>(config: &Config, sink: &mut K) -> Result<(), Failed>
    requires { IsAcceptedConfig config.now }
    ensures ok { OnOk result (Appends (K.held sink.old) (K.held sink.new) (opening_text Form.Format config.now)) }
    ensures err { OnErr result (AppendsFront (K.held sink.old) (K.held sink.new)
        (opening_text Form.Format config.now)) }
    ensures cause { HasCause (K.faults sink.old) (K.faults sink.new) result }
{
    write_config(config, sink)?;
    put(sink, b"=====\n")
}

// The same configuration in version 2.
fn migrated(config: Config) -> Config
    requires { IsAcceptedConfig config }
    ensures value { result ≡ migrated config }
    ensures accepted { IsAcceptedConfig result }
{
    Config {
        version: 2,
        ..config
    }
}

// Writes what stands before the lines of a job in canonical form. Answers the modules as they begin, or how the job ends
// here.
fn open<K: Sink>(config: Config, sink: &mut K) -> Result<Modules, Status>
    requires { IsAcceptedConfig config }
    ensures ok { OnOk result (Appends (K.held sink.old) (K.held sink.new) (opening_text Form.Format config) ×
        (K.faults sink.new ≡ K.faults sink.old)) }
    ensures err { IfErr result (λ how. (how ≡ Status.WriteFault) × AppendsFront (K.held sink.old) (K.held sink.new)
        (opening_text Form.Format config) × Rose (K.faults sink.old) (K.faults sink.new)) }
{
    match write_opening(&config, sink) {
        Ok(()) => Ok(Modules::new(config)),
        Err(_) => Err(Status::WriteFault),
    }
}

// What a form needs of a configuration for its script. `cut` has a copy of its set, since the modules take the others.
fn task_of(alloc: Global, form: Form, config: &Config) -> Result<Task, AllocError>
    requires { IsAcceptedConfig config.now }
    ensures { IfOk result (IsTask form config.now) }
{
    let set = match form {
        Form::Run | Form::Check | Form::Format | Form::Migrate => None,
        Form::Cut(ask) => chosen(alloc, config.ram_tst.sets.as_slice(), ask.set)?,
    };
    Ok(Task {
        form,
        shape: config.shape,
        set,
    })
}

// Does what stands before the script: a replay powers the board up, and canonical form begins with the configuration.
// Answers the modules as they begin, or how the job ends here.
fn begin<K: Sink, B: Bench>(
    alloc: Global,
    form: Form,
    config: Config,
    sink: &mut K,
    board: &mut B,
) -> Result<Modules, Status>
    requires { IsAcceptedConfig config }
    ensures begun { IfOk result (λ modules. IsBegun form config (B.state board.old).defect
        (machine (B.state board.new) modules) (B.state board.old)
        (outputs (K.held sink.old) (K.held sink.new) (B.tape board.old) (B.tape board.new))) }
    ensures ready { IfOk result (λ modules. IsReadyFor form config.shape (machine (B.state board.new) modules)) }
    ensures same { OnOk result (K.faults sink.new ≡ K.faults sink.old) }
    ensures err { IfErr result (λ how. BeginFails how form config (B.state board.old) (B.state board.new)
        (K.faults sink.old) (K.faults sink.new)
        (outputs (K.held sink.old) (K.held sink.new) (B.tape board.old) (B.tape board.new))) }
{
    match form {
        Form::Run => match power_up(alloc, config, board) {
            Ok(modules) => Ok(modules),
            Err(_) => Err(Status::NoMemory),
        },
        Form::Check | Form::Cut(_) => Ok(Modules::new(config)),
        Form::Format => open(config, sink),
        Form::Migrate => open(migrated(config), sink),
    }
}

// Takes the lines that the source has left, and tells how they end. What stands before them is done.
fn take_lines<S: Source, K: Sink, B: Bench>(
    task: &Task,
    modules: &mut Modules,
    board: &mut B,
    input: &mut Input,
    source: &mut S,
    sink: &mut K,
) -> Status
    requires ready { IsReadyFor task.now.form task.now.shape (machine (B.state board.old) modules.old) }
    requires set { IfSome task.now.set IsOfAccepted }
    ensures ready { IsReadyFor task.now.form task.now.shape (machine (B.state board.new) modules.new) }
    ensures board { UsesBoard task.now.form (B.state board.old) (B.state board.new) (B.tape board.old)
        (B.tape board.new) }
    ensures gives { (a : Option (List ℕ)) (h : Option (List ℕ)) (was : Option (List Touch))
        (defect : Option MemoryFault) (before : Board) (c : Config) → IsTask task.now.form c task.now
        → IsBegun task.now.form c defect (machine (B.state board.old) modules.old) before
        (outputs h (K.held sink.old) was (B.tape board.old))
        → WhereTold a (prepend_known input.old (S.left source.old)) (Begins c)
        → JobGives result (outcomes task.now.form defect) before (B.state board.new)
        (S.faults source.old) (S.faults source.new)
        (change a (S.left source.new) h (K.held sink.new) was (B.tape board.new)) }
    ensures cause { StatusCaused result (S.faults source.old) (S.faults source.new) (K.faults sink.old)
        (K.faults sink.new) }
{
    match run_script(task, modules, board, input, source, sink) {
        Ok(end) => tell_end(task, sink, end),
        Err(_) => Status::WriteFault,
    }
}

// Does what a form asks for with an accepted configuration and the script that the source has left.
fn replay_config<S: Source, K: Sink, B: Bench>(
    alloc: Global,
    form: Form,
    config: Config,
    follows: Follows,
    input: &mut Input,
    source: &mut S,
    sink: &mut K,
    board: &mut B,
) -> Status
    requires { IsAcceptedConfig config }
    ensures gives { (a : Option (List ℕ)) → WhereTold a (prepend_known input.old (S.left source.old))
        (FoundGives (Found.Config config follows))
        → JobGives result (outcomes form (B.state board.old).defect) (B.state board.old) (B.state board.new)
        (S.faults source.old) (S.faults source.new)
        (change a (S.left source.new) (K.held sink.old) (K.held sink.new) (B.tape board.old) (B.tape board.new)) }
    ensures cause { StatusCaused result (S.faults source.old) (S.faults source.new) (K.faults sink.old)
        (K.faults sink.new) }
    ensures board { UsesBoard form (B.state board.old) (B.state board.new) (B.tape board.old) (B.tape board.new) }
    ensures free { IsLeftFree (B.state board.old) (B.state board.new) }
{
    let Ok(task) = task_of(alloc, form, &config) else {
        return Status::NoMemory;
    };
    match begin(alloc, form, config, sink, board) {
        Ok(mut modules) => match follows {
            Follows::Lines => take_lines(&task, &mut modules, board, input, source, sink),
            Follows::Nothing => tell_end(&task, sink, End::Whole(0)),
        },
        Err(how) => how,
    }
}

/// Does what a form asks for with the job that the source has left.
pub fn replay_job<S: Source, K: Sink, B: Bench>(
    alloc: Global,
    form: Form,
    source: &mut S,
    sink: &mut K,
    board: &mut B,
) -> Status
    ensures gives { JobGives result (outcomes form (B.state board.old).defect) (B.state board.old) (B.state board.new)
        (S.faults source.old) (S.faults source.new)
        (change (S.left source.old) (S.left source.new)
        (K.held sink.old) (K.held sink.new) (B.tape board.old) (B.tape board.new)) }
    ensures cause { StatusCaused result (S.faults source.old) (S.faults source.new) (K.faults sink.old)
        (K.faults sink.new) }
    ensures board { UsesBoard form (B.state board.old) (B.state board.new) (B.tape board.old) (B.tape board.new) }
    ensures free { IsLeftFree (B.state board.old) (B.state board.new) }
{
    let Ok(mut kept) = Vec::with_capacity(alloc, HEAD_ROOM) else {
        return Status::NoMemory;
    };
    let mut input = Input::new();
    match find(alloc, &mut input, source, &mut kept) {
        Ok(Found::NoMemory) => Status::NoMemory,
        Ok(Found::Refused(why)) => tell_refused(sink, &why),
        Ok(Found::Config(config, follows)) => replay_config(
            alloc, form, config, follows, &mut input, source, sink, board,
        ),
        Err(_) => tell(sink, b"read fault\n", Status::ReadFault),
    }
}
