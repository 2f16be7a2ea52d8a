//! The reader of a line.

ghost use Rattle.std.specs.Prelude.{◌≡◌, ◌≤◌, ◌∷◌, [], length, Ok, Err, OnOk, IfOk, IfErr};
ghost use Rattle.mt_text.specs.Forms.{done};
ghost use Rattle.mt_text.specs.Lines.{run, Start, Requests, Ended, follows, line, begins_comment, running_module, line_of, Spells, Refuses};
ghost use Rattle.mt_text.specs.Reader.{Continues, Ends};
ghost use Rattle.mt_text.specs.declared.line.Event.{Event};
ghost use Rattle.mt_text.specs.Accepted.{IsAccepted};
ghost use Rattle.mt_text.specs.Cursors.{left, end_of, token_view};

use crate::cursor::Cursor;
use crate::event::event;
use crate::line::{Event, FlsCall, Line, LineKind, LineRefusal, RamCall};
use crate::request::one_request;
use crate::token::Token;
use crate::value::refused;
use arrayvec::ArrayVec;
use mt_port::{Module, Request, Shape};

/// Reads the requests behind a running event.
fn requests(
    out: &mut ArrayVec<Request, 16>,
    callee: Module,
    shape: Shape,
    cursor: &mut Cursor<'_>,
) -> Result<(), LineRefusal>
    requires { out.old.items ≡ [] }
    ensures { (ev : Event) → Ends shape cursor.old (Requests callee ev []) (λ _. line ev out.new.items) result }
{
    let mut last = 0;
    while !cursor.is_at_end() {
        last = one_request(out, last, callee, shape, cursor)?;
    }
    Ok(())
}

/// Nothing may follow an event that doesn't run.
fn nothing(cursor: &mut Cursor<'_>, shape: Shape) -> Result<(), LineRefusal>
    ensures { (ev : Event) → Ends shape cursor.old (Ended ev) (λ _. line ev []) result }
{
    match cursor.next() {
        Ok(token) => refused(LineKind::Spelling, token.place),
        Err(_) => Ok(()),
    }
}

/// The module of a running event.
fn running_module(event: &Event) -> Option<Module>
    ensures { result ≡ running_module event.now }
{
    match event {
        Event::TickRam
        | Event::Ram(RamCall::RunFullTest)
        | Event::Ram(RamCall::RunPartialTest(_)) => Some(Module::RamTst),
        Event::TickFls | Event::Fls(FlsCall::StartFgnd(_)) => Some(Module::FlsTst),
        _ => None,
    }
}

/// Reads what follows an event.
fn behind_event(
    out: &mut ArrayVec<Request, 16>,
    event: &Event,
    shape: Shape,
    cursor: &mut Cursor<'_>,
) -> Result<(), LineRefusal>
    requires { out.old.items ≡ [] }
    ensures { Ends shape cursor.old (follows event.now) (λ _. line event.now out.new.items) result }
{
    match running_module(event) {
        Some(callee) => requests(out, callee, shape, cursor),
        None => nothing(cursor, shape),
    }
}

/// Reads a line from its first word on.
fn from_word(
    out: &mut ArrayVec<Request, 16>,
    word: &Token<'_>,
    shape: Shape,
    cursor: &mut Cursor<'_>,
) -> Result<Event, LineRefusal>
    requires { out.old.items ≡ [] }
    ensures { Continues result (λ ev. Ok (line ev out.new.items))
        (run shape (end_of cursor.old) (done Start) (token_view word.now ∷ left cursor.old)) }
{
    let event = event(word, shape, cursor)?;
    behind_event(out, &event, shape, cursor)?;
    Ok(event)
}

fn begins_comment(word: &Token<'_>) -> bool
    ensures { result ≡ begins_comment word.now.bytes.now }
{
    match word.bytes {
        [] => false,
        [byte, ..] => *byte == b'#',
    }
}

/// Reads the event of a line, and its requests, as the table has them.
fn event_of(
    out: &mut ArrayVec<Request, 16>,
    text: &[u8],
    shape: Shape,
) -> Result<Event, LineRefusal>
    requires none { out.old.items ≡ [] }
    requires short { length text.now ≤ 1024 }
    ensures { Continues result (λ ev. Ok (line ev out.new.items)) (line_of shape text.now) }
{
    let mut cursor = Cursor {
        place: 1,
        rest: text,
    };
    match cursor.next() {
        Err(_) => Ok(Event::Nothing),
        Ok(word) => {
            if begins_comment(&word) {
                return Ok(Event::Nothing);
            }
            from_word(out, &word, shape, &mut cursor)
        }
    }
}

impl Line {
    /// The line that asks for nothing.
    pub fn new() -> Line
        ensures event { result.event ≡ Event.Nothing }
        ensures requests { result.requests.items ≡ [] }
    {
        Line {
            event: Event::Nothing,
            requests: ArrayVec::new(),
        }
    }

    /// Becomes what a text spells, so that a line read before gives its room to the next; or answers the refusal of
    /// `read_line`, and is then any line.
    pub fn read(&mut self, text: &[u8], shape: Shape) -> Result<(), LineRefusal>
        requires { length text.now ≤ 1024 }
        ensures ok { OnOk result (line_of shape text.now ≡ Ok self.new) }
        ensures err { IfErr result (λ refusal. line_of shape text.now ≡ Err refusal) }
        ensures accepted { OnOk result (IsAccepted shape self.new) }
    {
        self.requests.clear();
        match event_of(&mut self.requests, text, shape) {
            Ok(event) => {
                self.event = event;
                Ok(())
            }
            Err(refusal) => Err(refusal),
        }
    }
}

/// Reads a line without its line feed, or answers the least rule that its first wrong token breaks, with its place.
/// Each byte but the space, the brackets and the semicolon belongs to a word.
pub fn read_line(text: &[u8], shape: Shape) -> Result<Line, LineRefusal>
    requires { length text.now ≤ 1024 }
    ensures value { line_of shape text.now ≡ result }
    ensures ok { IfOk result (λ line. Spells shape text.now line) }
    ensures err { IfErr result (λ refusal. Refuses shape text.now refusal) }
    ensures accepted { IfOk result (λ line. IsAccepted shape line) }
{
    let mut line = Line::new();
    match line.read(text, shape) {
        Ok(()) => Ok(line),
        Err(refusal) => Err(refusal),
    }
}
