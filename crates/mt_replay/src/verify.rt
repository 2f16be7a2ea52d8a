//! The form `verify`: whether the text behind a script is its trace.

ghost use Rattle.std.specs.Prelude.{◌≡◌, ◌≤◌, ℕ, [], List, Option, Ok, Some, OnErr};
ghost use Rattle.std.specs.Io.KnownBytes.{prepend_known};
ghost use Rattle.mt_port.specs.Streams.{WhereTold};
ghost use Rattle.mt_text.specs.declared.line.Line.{Line};
ghost use Rattle.mt_conf.specs.Accepted.{IsAcceptedConfig};
ghost use Rattle.mt_replay.specs.Input.{Finished, cut};
ghost use Rattle.mt_machine.specs.Machine.{machine, IsReady};
ghost use Rattle.mt_replay.specs.Script.{script_from};
ghost use Rattle.mt_replay.specs.Changes.{change};
ghost use Rattle.mt_replay.specs.Verify.{whole_script, verifying};
ghost use Rattle.mt_replay.specs.Inner.Jobs.{Begins, FoundGives};
ghost use Rattle.mt_replay.specs.Inner.Comparing.{VerdictCaused};
ghost use Rattle.mt_replay.specs.Inner.Replaying.{IsScript};
ghost use Rattle.mt_replay.specs.Inner.Verifies.{verdict_said, verdict_how, Judges};
ghost use Rattle.mt_replay.specs.Replay.{JobGives, StatusCaused, IsLeftFree, Told};

use crate::comparing::{Comparison, Verdict};
use crate::head::HEAD_ROOM;
use crate::input::Input;
use crate::job::{Follows, Found, find, power_up, tell, tell_refused};
use crate::locate::{tell_end, tell_stop};
use crate::replaying::replay_lines;
use crate::run::End;
use crate::status::Status;
use crate::text::{differs_line, same_line};
use crate::verifying::read_script;
use mt_conf::Config;
use mt_machine::Modules;
use mt_port::{Bench, Failed, PlainSource, Shape, Sink, Source};
use mt_verify::whole_lines;
use std::alloc::Global;

// Writes how the texts compare, or that the source failed.
fn tell_verdict<K: Sink>(sink: &mut K, verdict: Result<Verdict, Failed>) -> Status
    ensures { Told result (verdict_how verdict) (verdict_said verdict) (K.held sink.old) (K.held sink.new)
        (K.faults sink.old) (K.faults sink.new) }
{
    match verdict {
        Ok(Verdict::Same(count)) => tell(sink, &same_line(count), Status::Done),
        Ok(Verdict::Differs(line)) => tell(sink, &differs_line(line), Status::Differs { line }),
        Err(_) => tell(sink, b"read fault\n", Status::ReadFault),
    }
}

// Replays a kept script of so many lines, and says how the text that is left compares with its trace.
fn judge_trace<S: Source, B: Bench>(
    kept: Vec<u8>,
    count: u32,
    shape: Shape,
    modules: &mut Modules,
    board: &mut B,
    input: &mut Input,
    source: &mut S,
) -> Result<Verdict, Failed>
    requires ready { IsReady shape (machine (B.state board.old) modules.old) }
    requires script { IsScript shape count kept.items }
    requires few { count ≤ 1000000 }
    ensures ready { IsReady shape (machine (B.state board.new) modules.new) }
    ensures defect { (B.state board.new).defect ≡ (B.state board.old).defect }
    ensures judges { (lines : List Line) → script_from shape Finished 1 (cut kept.items) ≡ whole_script lines
        → Judges result shape lines (machine (B.state board.old) modules.old) (machine (B.state board.new) modules.new)
        (prepend_known input.old (S.left source.old)) (prepend_known input.new (S.left source.new))
        (B.tape board.old) (B.tape board.new) }
    ensures cause { VerdictCaused result (S.faults source.old) (S.faults source.new) }
    ensures none { OnErr result (input.new ≡ []) }
{
    whole_lines();
    let mut comparison = Comparison::new();
    replay_lines(
        kept,
        count,
        shape,
        modules,
        board,
        &mut comparison,
        input,
        source,
    );
    comparison.finish(input, source)
}

// Replays a kept script of so many lines that no text follows, and says how the empty text compares with its trace.
fn judge_nothing<B: Bench>(
    alloc: Global,
    kept: Vec<u8>,
    count: u32,
    shape: Shape,
    modules: &mut Modules,
    board: &mut B,
) -> Verdict
    requires ready { IsReady shape (machine (B.state board.old) modules.old) }
    requires script { IsScript shape count kept.items }
    requires few { count ≤ 1000000 }
    ensures ready { IsReady shape (machine (B.state board.new) modules.new) }
    ensures defect { (B.state board.new).defect ≡ (B.state board.old).defect }
    ensures judges { (lines : List Line) → script_from shape Finished 1 (cut kept.items) ≡ whole_script lines
        → Judges (Ok result) shape lines (machine (B.state board.old) modules.old)
        (machine (B.state board.new) modules.new) (Some []) (Some []) (B.tape board.old) (B.tape board.new) }
{
    let mut input = Input::new();
    let mut nothing = PlainSource::new(Vec::new(alloc));
    match judge_trace(kept, count, shape, modules, board, &mut input, &mut nothing) {
        Ok(verdict) => verdict,
        // The empty text is in memory.
        Err(_) => unreachable!(),
    }
}

// Verifies the trace behind a script of an accepted configuration. Where the input ended with the script's separator, it is
// not read any more.
fn verify_lines<S: Source, K: Sink, B: Bench>(
    alloc: Global,
    config: Config,
    input: &mut Input,
    source: &mut S,
    sink: &mut K,
    board: &mut B,
) -> Status
    requires { IsAcceptedConfig config }
    ensures gives { (a : Option (List ℕ)) → WhereTold a (prepend_known input.old (S.left source.old)) (Begins config)
        → JobGives result (verifying (B.state board.old).defect) (B.state board.old) (B.state board.new)
        (S.faults source.old) (S.faults source.new)
        (change a (S.left source.new) (K.held sink.old) (K.held sink.new) (B.tape board.old) (B.tape board.new)) }
    ensures cause { StatusCaused result (S.faults source.old) (S.faults source.new) (K.faults sink.old)
        (K.faults sink.new) }
    ensures board { (B.state board.new).defect ≡ (B.state board.old).defect }
    ensures free { IsLeftFree (B.state board.old) (B.state board.new) }
{
    let mut kept = Vec::new(alloc);
    let shape = config.shape;
    let script = match read_script(input, source, shape, &mut kept) {
        Ok(script) => script,
        Err(stop) => return tell_stop(sink, stop),
    };
    let count = script.lines;
    let Ok(mut modules) = power_up(alloc, config, board) else {
        return Status::NoMemory;
    };
    match script.follows {
        Follows::Lines => {
            let verdict = judge_trace(kept, count, shape, &mut modules, board, input, source);
            tell_verdict(sink, verdict)
        }
        Follows::Nothing => {
            let verdict = judge_nothing(alloc, kept, count, shape, &mut modules, board);
            tell_verdict(sink, Ok(verdict))
        }
    }
}

// Verifies the trace behind an accepted configuration. Where nothing follows that, the script's separator is missing.
fn verify_config<S: Source, K: Sink, B: Bench>(
    alloc: Global,
    config: Config,
    follows: Follows,
    input: &mut Input,
    source: &mut S,
    sink: &mut K,
    board: &mut B,
) -> Status
    requires { IsAcceptedConfig config }
    ensures gives { (a : Option (List ℕ)) → WhereTold a (prepend_known input.old (S.left source.old))
        (FoundGives (Found.Config config follows))
        → JobGives result (verifying (B.state board.old).defect) (B.state board.old) (B.state board.new)
        (S.faults source.old) (S.faults source.new)
        (change a (S.left source.new) (K.held sink.old) (K.held sink.new) (B.tape board.old) (B.tape board.new)) }
    ensures cause { StatusCaused result (S.faults source.old) (S.faults source.new) (K.faults sink.old)
        (K.faults sink.new) }
    ensures board { (B.state board.new).defect ≡ (B.state board.old).defect }
    ensures free { IsLeftFree (B.state board.old) (B.state board.new) }
{
    match follows {
        Follows::Lines => verify_lines(alloc, config, input, source, sink, board),
        Follows::Nothing => tell_end(
            sink,
            End::Refused {
                line: 1,
                code: 17,
                place: 1,
            },
        ),
    }
}

/// Says whether a text is the trace of a script, which is replayed. The source has a configuration, the script, and the
/// text.
pub fn verify_job<S: Source, K: Sink, B: Bench>(
    alloc: Global,
    source: &mut S,
    sink: &mut K,
    board: &mut B,
) -> Status
    ensures gives { JobGives result (verifying (B.state board.old).defect) (B.state board.old) (B.state board.new)
        (S.faults source.old) (S.faults source.new)
        (change (S.left source.old) (S.left source.new)
        (K.held sink.old) (K.held sink.new) (B.tape board.old) (B.tape board.new)) }
    ensures cause { StatusCaused result (S.faults source.old) (S.faults source.new) (K.faults sink.old)
        (K.faults sink.new) }
    ensures board { (B.state board.new).defect ≡ (B.state board.old).defect }
    ensures free { IsLeftFree (B.state board.old) (B.state board.new) }
{
    let Ok(mut kept) = Vec::with_capacity(alloc, HEAD_ROOM) else {
        return Status::NoMemory;
    };
    let mut input = Input::new();
    match find(alloc, &mut input, source, &mut kept) {
        Ok(Found::NoMemory) => Status::NoMemory,
        Ok(Found::Refused(why)) => tell_refused(sink, &why),
        Ok(Found::Config(config, follows)) => {
            verify_config(alloc, config, follows, &mut input, source, sink, board)
        }
        Err(_) => tell(sink, b"read fault\n", Status::ReadFault),
    }
}
