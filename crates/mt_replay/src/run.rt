//! Runs the lines of a script.

ghost use Rattle.std.specs.Prelude.{◌≡◌, ◌≤◌, ◌++◌, [], ◌∷◌, Ok, length, OnOk, OnErr};
ghost use Rattle.std.specs.Io.KnownBytes.{prepend_known, Appends};
ghost use Rattle.mt_port.specs.Causes.{HasCause};
ghost use Rattle.mt_port.specs.Streams.{AppendsFront, WhereTold};
ghost use Rattle.mt_text.specs.Accepted.{IsAccepted as IsAcceptedLine};
ghost use Rattle.mt_text.specs.Trace.{entries_text};
ghost use Rattle.mt_machine.specs.Machine.{Machine, machine, IsReady};
ghost use Rattle.mt_replay.specs.Script.{judged};
ghost use Rattle.mt_replay.specs.Changes.{change, UsesBoard};
ghost use Rattle.mt_replay.specs.Inner.Runs.{outputs, place, text_at, Answered, Breaks, LineGives, LastGives, TurnGives, ScriptGives, PastGives, EndCaused, TurnCaused, ScriptCaused, IsReadyFor};

use crate::form::{Form, Task};
use crate::input::{Input, Line as Reading, LineText};
use arrayvec::ArrayVec;
use mt_machine::{Modules, lines_keep_the_board, perform};
use mt_port::{Bench, Failed, Shape, Sink, Source, put};
use mt_text::{Line, LineText as CanonicalText, push_entry, push_line, trace_lines_stand_in_order};
use mt_window::{Entry, EventLog, Reply};
use mt_word::Width;

/// How a script ends: it is whole, and has so many lines; a line is refused: its number, the rule, and the place of its
/// first byte that breaks it, all from 1; or the source failed in it.
#[derive(Clone, Copy, Debug, PartialEq, Eq)]
pub enum End {
    Whole(u32),
    Refused { line: u32, code: u8, place: u32 },
    Broken,
}

/// What came of one line.
#[derive(Clone, Copy, Debug, PartialEq, Eq)]
pub enum Turn {
    More,
    Ended(End),
}

/// The trace of one script line: at most 257 entries of at most 64 bytes.
type Page = ArrayVec<u8, 16_448>;

/// Room for what is read and made of a line. It is made once a job, and each line finds it as the line before left it.
#[derive(Drop)]
pub(crate) struct Desk {
    text: LineText,
    line: Line,
    log: EventLog,
    page: Page,
    canonical: CanonicalText,
}

impl Desk {
    fn new() -> Desk {
        Desk {
            text: ArrayVec::new(),
            line: Line::new(),
            log: EventLog::new(),
            page: ArrayVec::new(),
            canonical: ArrayVec::new(),
        }
    }
}

// Makes the trace lines of some entries, on an empty page.
fn push_entries(page: &mut Page, entries: &[Entry], width: Width, number: u32)
    requires empty { page.old.items ≡ [] }
    requires few { length entries.now ≤ 256 }
    ensures text { page.new.items ≡ entries_text width number entries.now }
    ensures short { length page.new.items ≤ 16384 }
{
    trace_lines_stand_in_order();
    for entry in entries {
        push_entry(page, number, entry, width);
    }
}

// Writes what was entered in the log, and then the line's own reply, in one piece.
fn write_answer<K: Sink>(
    sink: &mut K,
    page: &mut Page,
    log: &EventLog,
    reply: Reply,
    width: Width,
    number: u32,
) -> Result<(), Failed>
    ensures ok { OnOk result (Appends (K.held sink.old) (K.held sink.new)
        (entries_text width number (log.now ++ Entry.Own reply ∷ []))) }
    ensures err { OnErr result (AppendsFront (K.held sink.old) (K.held sink.new)
        (entries_text width number (log.now ++ Entry.Own reply ∷ []))) }
    ensures cause { HasCause (K.faults sink.old) (K.faults sink.new) result }
{
    trace_lines_stand_in_order();
    page.clear();
    push_entries(page, log.entries(), width, number);
    push_entry(page, number, &Entry::Own(reply), width);
    put(sink, page)
}

// Does what an accepted line asks for, and writes its entries.
fn play_line<K: Sink, B: Bench>(
    shape: Shape,
    modules: &mut Modules,
    board: &mut B,
    sink: &mut K,
    desk: &mut Desk,
    number: u32,
) -> Result<(), Failed>
    requires ready { IsReady shape (machine (B.state board.old) modules.old) }
    requires line { IsAcceptedLine shape desk.old.line }
    ensures ready { IsReady shape (machine (B.state board.new) modules.new) }
    ensures board { UsesBoard Form.Run (B.state board.old) (B.state board.new) (B.tape board.old) (B.tape board.new) }
    ensures ok { OnOk result (Answered (place Form.Run shape number) (machine (B.state board.old) modules.old)
        (machine (B.state board.new) modules.new)
        (desk.old.line ∷ []) (outputs (K.held sink.old) (K.held sink.new) (B.tape board.old) (B.tape board.new))) }
    ensures err { OnErr result (Breaks (place Form.Run shape number) (machine (B.state board.old) modules.old)
        (machine (B.state board.new) modules.new)
        desk.old.line (outputs (K.held sink.old) (K.held sink.new) (B.tape board.old) (B.tape board.new))) }
    ensures cause { HasCause (K.faults sink.old) (K.faults sink.new) result }
{
    lines_keep_the_board();
    desk.log.clear();
    match perform(modules, board, &mut desk.line, &mut desk.log) {
        None => Ok(()),
        Some(reply) => {
            let Desk { page, log, .. } = desk;
            write_answer(sink, page, log, reply, shape.width, number)
        }
    }
}

// Writes an accepted line in canonical form.
fn format_line<K: Sink>(shape: Shape, sink: &mut K, desk: &mut Desk) -> Result<(), Failed>
    ensures ok { (m : Machine) (number : _) → OnOk result (Appends (K.held sink.old) (K.held sink.new)
        (text_at (place Form.Format shape number) m (desk.old.line ∷ []))) }
    ensures err { (m : Machine) (number : _) → OnErr result (AppendsFront (K.held sink.old) (K.held sink.new)
        (text_at (place Form.Format shape number) m (desk.old.line ∷ []))) }
    ensures cause { HasCause (K.faults sink.old) (K.faults sink.new) result }
{
    desk.canonical.clear();
    push_line(&mut desk.canonical, &desk.line, shape.width);
    put(sink, &desk.canonical)
}

// What the form makes of an accepted line.
fn answer_line<K: Sink, B: Bench>(
    task: &Task,
    modules: &mut Modules,
    board: &mut B,
    sink: &mut K,
    desk: &mut Desk,
    number: u32,
) -> Result<(), Failed>
    requires ready { IsReadyFor task.now.form task.now.shape (machine (B.state board.old) modules.old) }
    requires line { IsAcceptedLine task.now.shape desk.old.line }
    ensures ready { IsReadyFor task.now.form task.now.shape (machine (B.state board.new) modules.new) }
    ensures board { UsesBoard task.now.form (B.state board.old) (B.state board.new) (B.tape board.old)
        (B.tape board.new) }
    ensures ok { OnOk result (Answered (place task.now.form task.now.shape number)
        (machine (B.state board.old) modules.old) (machine (B.state board.new) modules.new)
        (desk.old.line ∷ []) (outputs (K.held sink.old) (K.held sink.new) (B.tape board.old) (B.tape board.new))) }
    ensures err { OnErr result (Breaks (place task.now.form task.now.shape number)
        (machine (B.state board.old) modules.old) (machine (B.state board.new) modules.new)
        desk.old.line (outputs (K.held sink.old) (K.held sink.new) (B.tape board.old) (B.tape board.new))) }
    ensures cause { HasCause (K.faults sink.old) (K.faults sink.new) result }
{
    match task.form {
        Form::Run => play_line(task.shape, modules, board, sink, desk, number),
        Form::Check | Form::Cut(_) => Ok(()),
        Form::Format | Form::Migrate => format_line(task.shape, sink, desk),
    }
}

// Reads the text of a line, and does what it asks for.
fn judge_line<K: Sink, B: Bench>(
    task: &Task,
    modules: &mut Modules,
    board: &mut B,
    sink: &mut K,
    desk: &mut Desk,
    number: u32,
) -> Result<Turn, Failed>
    requires ready { IsReadyFor task.now.form task.now.shape (machine (B.state board.old) modules.old) }
    requires few { number ≤ 1000000 }
    ensures ready { IsReadyFor task.now.form task.now.shape (machine (B.state board.new) modules.new) }
    ensures board { UsesBoard task.now.form (B.state board.old) (B.state board.new) (B.tape board.old)
        (B.tape board.new) }
    ensures gives { LineGives result (place task.now.form task.now.shape number)
        (judged task.now.shape number desk.old.text.items) (machine (B.state board.old) modules.old)
        (machine (B.state board.new) modules.new) (outputs
        (K.held sink.old) (K.held sink.new) (B.tape board.old) (B.tape board.new)) }
    ensures cause { HasCause (K.faults sink.old) (K.faults sink.new) result }
{
    match desk.line.read(&desk.text, task.shape) {
        Ok(()) => match answer_line(task, modules, board, sink, desk, number) {
            Ok(()) => Ok(Turn::More),
            Err(failed) => Err(failed),
        },
        Err(refusal) => Ok(Turn::Ended(End::Refused {
            line: number,
            code: refusal.kind.number(),
            place: refusal.place,
        })),
    }
}

// The last line, which has no line feed.
fn last_line<K: Sink, B: Bench>(
    task: &Task,
    modules: &mut Modules,
    board: &mut B,
    sink: &mut K,
    desk: &mut Desk,
    number: u32,
) -> Result<End, Failed>
    requires ready { IsReadyFor task.now.form task.now.shape (machine (B.state board.old) modules.old) }
    requires few { number ≤ 1000000 }
    ensures ready { IsReadyFor task.now.form task.now.shape (machine (B.state board.new) modules.new) }
    ensures board { UsesBoard task.now.form (B.state board.old) (B.state board.new) (B.tape board.old)
        (B.tape board.new) }
    ensures gives { LastGives result (place task.now.form task.now.shape number)
        (judged task.now.shape number desk.old.text.items) (machine (B.state board.old) modules.old)
        (machine (B.state board.new) modules.new) (outputs
        (K.held sink.old) (K.held sink.new) (B.tape board.old) (B.tape board.new)) }
    ensures cause { HasCause (K.faults sink.old) (K.faults sink.new) result }
{
    match judge_line(task, modules, board, sink, desk, number) {
        Ok(Turn::More) => Ok(End::Whole(number)),
        Ok(Turn::Ended(end)) => Ok(end),
        Err(failed) => Err(failed),
    }
}

// Runs the next line, or ends the script.
fn run_line<S: Source, K: Sink, B: Bench>(
    task: &Task,
    modules: &mut Modules,
    board: &mut B,
    input: &mut Input,
    source: &mut S,
    sink: &mut K,
    desk: &mut Desk,
    number: u32,
) -> Result<Turn, Failed>
    requires ready { IsReadyFor task.now.form task.now.shape (machine (B.state board.old) modules.old) }
    requires first { 1 ≤ number }
    requires few { number ≤ 1000000 }
    ensures ready { IsReadyFor task.now.form task.now.shape (machine (B.state board.new) modules.new) }
    ensures board { UsesBoard task.now.form (B.state board.old) (B.state board.new) (B.tape board.old)
        (B.tape board.new) }
    ensures gives { TurnGives result (place task.now.form task.now.shape number)
        (machine (B.state board.old) modules.old) (machine (B.state board.new) modules.new)
        (change (prepend_known input.old (S.left source.old))
        (prepend_known input.new (S.left source.new))
        (K.held sink.old) (K.held sink.new) (B.tape board.old) (B.tape board.new)) }
    ensures none { result ≡ Ok (Turn.Ended End.Broken) → input.new ≡ [] }
    ensures cause { TurnCaused result (S.faults source.old) (S.faults source.new) (K.faults sink.old)
        (K.faults sink.new) }
{
    desk.text.clear();
    match input.read_line(source, &mut desk.text) {
        Ok(Reading::Whole) => judge_line(task, modules, board, sink, desk, number),
        Ok(Reading::Last) => match last_line(task, modules, board, sink, desk, number) {
            Ok(end) => Ok(Turn::Ended(end)),
            Err(failed) => Err(failed),
        },
        Ok(Reading::End) => Ok(Turn::Ended(End::Whole(number - 1))),
        Ok(Reading::TooLong) => Ok(Turn::Ended(End::Refused {
            line: number,
            code: 10,
            place: 1025,
        })),
        Err(_) => Ok(Turn::Ended(End::Broken)),
    }
}

// What comes behind the last line that may be: the end, or a line too many.
fn run_past<S: Source>(input: &mut Input, source: &mut S) -> End
    ensures gives { (shape : Shape) → PastGives result shape (prepend_known input.old (S.left source.old))
        (prepend_known input.new (S.left source.new)) }
    ensures none { result ≡ End.Broken → input.new ≡ [] }
    ensures cause { EndCaused result (S.faults source.old) (S.faults source.new) }
{
    match input.fill(source) {
        Ok(true) => End::Refused {
            line: 1_000_001,
            code: 11,
            place: 1,
        },
        Ok(false) => End::Whole(1_000_000),
        Err(_) => End::Broken,
    }
}

/// Runs the lines that the source has left, writes what the form makes of them, and answers how they end.
pub fn run_script<S: Source, K: Sink, B: Bench>(
    task: &Task,
    modules: &mut Modules,
    board: &mut B,
    input: &mut Input,
    source: &mut S,
    sink: &mut K,
) -> Result<End, Failed>
    requires { IsReadyFor task.now.form task.now.shape (machine (B.state board.old) modules.old) }
    ensures ready { IsReadyFor task.now.form task.now.shape (machine (B.state board.new) modules.new) }
    ensures board { UsesBoard task.now.form (B.state board.old) (B.state board.new) (B.tape board.old)
        (B.tape board.new) }
    ensures gives { ScriptGives result (place task.now.form task.now.shape 1)
        (machine (B.state board.old) modules.old) (machine (B.state board.new) modules.new)
        (change (prepend_known input.old (S.left source.old))
        (prepend_known input.new (S.left source.new))
        (K.held sink.old) (K.held sink.new) (B.tape board.old) (B.tape board.new)) }
    ensures none { result ≡ Ok End.Broken → input.new ≡ [] }
    ensures cause { ScriptCaused result (S.faults source.old) (S.faults source.new) (K.faults sink.old)
        (K.faults sink.new) }
{
    let mut desk = Desk::new();
    for number in 1..=1_000_000 {
        match run_line(task, modules, board, input, source, sink, &mut desk, number) {
            Ok(Turn::More) => {}
            Ok(Turn::Ended(end)) => return Ok(end),
            Err(failed) => return Err(failed),
        }
    }
    Ok(run_past(input, source))
}
