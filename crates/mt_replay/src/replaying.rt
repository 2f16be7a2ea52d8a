//! Replays a kept script, and compares its trace with a given text.

ghost use Rattle.std.specs.Prelude.{◌≡◌, ◌≤◌, ◌<◌, ◌+◌, ◌++◌, ◌∷◌, [], List, length};
ghost use Rattle.mt_text.specs.declared.line.Line.{Line};
ghost use Rattle.mt_replay.specs.Input.{Finished, cut};
ghost use Rattle.mt_replay.specs.Script.{script_from};
ghost use Rattle.mt_replay.specs.Verify.{whole_script};
ghost use Rattle.std.specs.Io.KnownBytes.{prepend_known};
ghost use Rattle.mt_verify.specs.Lines.{feed_limit};
ghost use Rattle.mt_port.specs.Memory.{plain_left};
ghost use Rattle.mt_text.specs.Accepted.{IsAccepted as IsAcceptedLine};
ghost use Rattle.mt_text.specs.Trace.{entries_text};
ghost use Rattle.mt_machine.specs.Machine.{machine, IsReady};
ghost use Rattle.mt_replay.specs.Changes.{UsesBoard};
ghost use Rattle.mt_replay.specs.Inner.Comparing.{Compares, KeepsCause, IsDrained};
ghost use Rattle.mt_replay.specs.Inner.Replaying.{Played, IsScript, PlayedWhole, HasLine, TakesFirst};

use crate::comparing::Comparison;
use crate::form::Form;
use crate::input::{Input, LineText};
use crate::text::done_text;
use arrayvec::ArrayVec;
use mt_machine::{Modules, lines_keep_the_board, perform};
use mt_port::{Bench, PlainSource, Shape, Source};
use mt_text::{Line, entry_text, trace_lines_stand_in_order};
use mt_window::{Entry, EventLog, Reply};
use mt_word::Width;

/// Room for what is read and made of a kept line. It is made once a job, and each line finds it as the line before left it.
#[derive(Drop)]
pub(crate) struct Sheet {
    pub text: LineText,
    pub line: Line,
    log: EventLog,
}

impl Sheet {
    /// An empty one.
    pub(crate) fn new() -> Sheet {
        Sheet {
            text: ArrayVec::new(),
            line: Line::new(),
            log: EventLog::new(),
        }
    }
}

// Compares the trace lines of some entries.
fn compare_entries<S: Source>(
    comparison: &mut Comparison,
    input: &mut Input,
    source: &mut S,
    entries: &[Entry],
    width: Width,
    number: u32,
)
    requires few { comparison.old.tally + length entries.now < feed_limit }
    ensures compares { Compares comparison.old comparison.new (entries_text width number entries.now)
        (prepend_known input.old (S.left source.old)) (prepend_known input.new (S.left source.new)) }
    ensures cause { KeepsCause comparison.old comparison.new (S.faults source.old) (S.faults source.new) }
    ensures drained { IsDrained comparison.old input.old → IsDrained comparison.new input.new }
    ensures few { comparison.new.tally ≤ comparison.old.tally + length entries.now }
{
    for entry in entries {
        comparison.compare(input, source, &entry_text(number, entry, width));
    }
}

// Compares what was entered in the log, and then the line's own reply.
fn compare_answer<S: Source>(
    comparison: &mut Comparison,
    input: &mut Input,
    source: &mut S,
    log: &[Entry],
    reply: Reply,
    width: Width,
    number: u32,
)
    requires few { comparison.old.tally + (length log.now + 1) < feed_limit }
    ensures compares { Compares comparison.old comparison.new
        (entries_text width number (log.now ++ Entry.Own reply ∷ []))
        (prepend_known input.old (S.left source.old)) (prepend_known input.new (S.left source.new)) }
    ensures cause { KeepsCause comparison.old comparison.new (S.faults source.old) (S.faults source.new) }
    ensures drained { IsDrained comparison.old input.old → IsDrained comparison.new input.new }
    ensures few { comparison.new.tally ≤ comparison.old.tally + (length log.now + 1) }
{
    trace_lines_stand_in_order();
    compare_entries(comparison, input, source, log, width, number);
    comparison.compare(
        input,
        source,
        &entry_text(number, &Entry::Own(reply), width),
    );
}

/// Does what an accepted line asks for, and compares its entries.
pub(crate) fn play_line<S: Source, B: Bench>(
    shape: Shape,
    modules: &mut Modules,
    board: &mut B,
    comparison: &mut Comparison,
    input: &mut Input,
    source: &mut S,
    sheet: &mut Sheet,
    number: u32,
)
    requires ready { IsReady shape (machine (B.state board.old) modules.old) }
    requires line { IsAcceptedLine shape sheet.old.line }
    requires few { comparison.old.tally + 257 < feed_limit }
    ensures ready { IsReady shape (machine (B.state board.new) modules.new) }
    ensures board { UsesBoard Form.Run (B.state board.old) (B.state board.new) (B.tape board.old) (B.tape board.new) }
    ensures plays { Played shape number (machine (B.state board.old) modules.old) (machine (B.state board.new) modules.new)
        (sheet.old.line ∷ []) comparison.old comparison.new (prepend_known input.old (S.left source.old))
        (prepend_known input.new (S.left source.new)) (B.tape board.old) (B.tape board.new) }
    ensures cause { KeepsCause comparison.old comparison.new (S.faults source.old) (S.faults source.new) }
    ensures drained { IsDrained comparison.old input.old → IsDrained comparison.new input.new }
    ensures few { comparison.new.tally ≤ comparison.old.tally + 257 }
{
    lines_keep_the_board();
    sheet.log.clear();
    match perform(modules, board, &mut sheet.line, &mut sheet.log) {
        None => {}
        Some(reply) => compare_answer(
            comparison,
            input,
            source,
            sheet.log.entries(),
            reply,
            shape.width,
            number,
        ),
    }
}

// Takes the next line of a kept script, which there is.
fn take_line(script: &mut PlainSource, lines: &mut Input, sheet: &mut Sheet, shape: Shape)
    requires { HasLine shape (lines.old ++ plain_left script.old) }
    ensures accepted { IsAcceptedLine shape sheet.new.line }
    ensures takes { TakesFirst shape sheet.new.line (lines.old ++ plain_left script.old)
        (lines.new ++ plain_left script.new) }
{
    sheet.text.clear();
    match lines.read_line(script, &mut sheet.text) {
        Ok(_) => {}
        // The script is in memory.
        Err(_) => unreachable!(),
    }
    match sheet.line.read(&sheet.text, shape) {
        Ok(()) => {}
        // Each line of the script is accepted.
        Err(_) => unreachable!(),
    }
}

/// Replays a kept script of so many lines, and compares its trace and its closing line.
pub(crate) fn replay_lines<S: Source, B: Bench>(
    kept: Vec<u8>,
    count: u32,
    shape: Shape,
    modules: &mut Modules,
    board: &mut B,
    comparison: &mut Comparison,
    input: &mut Input,
    source: &mut S,
)
    requires ready { IsReady shape (machine (B.state board.old) modules.old) }
    requires script { IsScript shape count kept.items }
    requires few { count ≤ 1000000 }
    requires fresh { comparison.old.tally ≡ 0 }
    ensures ready { IsReady shape (machine (B.state board.new) modules.new) }
    ensures board { UsesBoard Form.Run (B.state board.old) (B.state board.new) (B.tape board.old) (B.tape board.new) }
    ensures plays { (lines : List Line) → script_from shape Finished 1 (cut kept.items) ≡ whole_script lines
        → PlayedWhole shape lines (machine (B.state board.old) modules.old) (machine (B.state board.new) modules.new)
        comparison.old comparison.new (prepend_known input.old (S.left source.old))
        (prepend_known input.new (S.left source.new)) (B.tape board.old) (B.tape board.new) }
    ensures cause { KeepsCause comparison.old comparison.new (S.faults source.old) (S.faults source.new) }
    ensures drained { IsDrained comparison.old input.old → IsDrained comparison.new input.new }
{
    let mut script = PlainSource::new(kept);
    let mut lines = Input::new();
    let mut sheet = Sheet::new();
    for number in 1..=count {
        take_line(&mut script, &mut lines, &mut sheet, shape);
        play_line(
            shape, modules, board, comparison, input, source, &mut sheet, number,
        );
    }
    comparison.compare(input, source, &done_text(count));
}
