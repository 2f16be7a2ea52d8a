//! Requests.

ghost use Rattle.std.specs.Prelude.{◌≡◌, false, refl, ◌<◌, ◌≤◌, ◌++◌, ◌∷◌, [], List, length, IfOk};
ghost use Rattle.mt_text.specs.Values.{begins_mark, begins_urgent};
ghost use Rattle.mt_text.specs.Forms.{mark, done};
ghost use Rattle.mt_text.specs.Lines.{Requests, Handler, Operation, Open, request, last_offset};
ghost use Rattle.mt_text.specs.Reader.{Goes, behind_op};
ghost use Rattle.mt_text.specs.declared.request.Mark.{Mark};
ghost use Rattle.mt_text.specs.declared.line.Event.{Event};
ghost use Rattle.mt_port.specs.declared.request.Request.{Request};
ghost use Rattle.mt_text.specs.Cursors.{left, no_token};

use crate::cursor::Cursor;
use crate::handler::handler_op;
use crate::line::{LineKind, LineRefusal};
use crate::token::number_of;
use crate::value::{Place, is, refused, value};
use arrayvec::ArrayVec;
use mt_port::{HandlerOp, Module, Request, Shape};

/// The mark of a request.
#[derive(Clone, Copy)]
pub struct Mark {
    pub offset: u32,
    pub urgent: bool,
}

fn begins_mark(bytes: &[u8]) -> bool
    ensures { result ≡ begins_mark bytes.now }
{
    match bytes {
        [] => false,
        [byte, ..] => *byte == b'@' || *byte == b'!',
    }
}

fn begins_urgent(bytes: &[u8]) -> bool
    ensures { result ≡ begins_urgent bytes.now }
{
    match bytes {
        [] => false,
        [byte, ..] => *byte == b'!',
    }
}

/// The place of a request's mark, behind so many requests of which the last has this offset.
#[derive(Clone, Copy)]
struct MarkPlace {
    last: u32,
    count: usize,
}

impl Place for MarkPlace {
    type Value = Mark;

    ghost form = { λ place. mark place.last place.count (λ k. done k) };

    ghost goes_on = { λ place. refl };

    #[tactic(auto, unfolding(crate::specs::Values::mark_at))]
    fn judge(self, _shape: Shape, bytes: &[u8]) -> Result<Mark, LineKind> {
        if !begins_mark(bytes) {
            return Err(LineKind::Spelling);
        }
        let Some(offset) = number_of(&bytes[1..]) else {
            return Err(LineKind::Number);
        };
        if offset < self.last {
            return Err(LineKind::OffsetsFall);
        }
        if self.count >= 16 {
            return Err(LineKind::TooManyRequests);
        }
        Ok(Mark {
            offset,
            urgent: begins_urgent(bytes),
        })
    }
}

/// Reads an operation, and the token behind it; answers whether the handler ends there.
fn operation(
    ops: &mut ArrayVec<HandlerOp, 8>,
    callee: Module,
    shape: Shape,
    cursor: &mut Cursor<'_>,
) -> Result<bool, LineRefusal>
    requires { length ops.old.items ≤ 8 }
    ensures goes { (ev : Event) (rs : List Request) (k : Mark) → Goes shape cursor.old cursor.new
        (Operation callee ev rs k ops.old.items) (λ ended. behind_op ended callee ev rs k ops.new.items) result }
    ensures shorter { IfOk result (λ _. length (left cursor.new) < length (left cursor.old)) }
    ensures few { length ops.new.items ≤ 8 }
{
    let full = ops.len() >= 8;
    let op = handler_op(full, callee, shape, cursor)?;
    ops.push(op);
    let mark = cursor.next()?;
    if is(mark.bytes, b";") {
        return Ok(false);
    }
    if is(mark.bytes, b"]") {
        return Ok(true);
    }
    refused(LineKind::Spelling, mark.place)
}

/// Reads a handler behind its opening bracket.
fn handler(
    callee: Module,
    shape: Shape,
    cursor: &mut Cursor<'_>,
) -> Result<ArrayVec<HandlerOp, 8>, LineRefusal>
    ensures goes { (ev : Event) (rs : List Request) (k : Mark) → Goes shape cursor.old cursor.new
        (Open callee ev rs k) (λ ops. Requests callee ev (rs ++ request k ops.items ∷ [])) result }
    ensures shorter { IfOk result (λ _. length (left cursor.new) ≤ length (left cursor.old)) }
{
    let mut ops = ArrayVec::new();
    if cursor.takes(b"]") {
        return Ok(ops);
    }
    let mut ended = false;
    while !ended {
        ended = operation(&mut ops, callee, shape, cursor)?;
    }
    Ok(ops)
}

/// Reads the handler behind a mark, where there is one.
fn handler_if_any(
    callee: Module,
    shape: Shape,
    cursor: &mut Cursor<'_>,
) -> Result<ArrayVec<HandlerOp, 8>, LineRefusal>
    ensures goes { (ev : Event) (rs : List Request) (k : Mark) → Goes shape cursor.old cursor.new
        (Handler callee ev rs k) (λ ops. Requests callee ev (rs ++ request k ops.items ∷ [])) result }
    ensures shorter { IfOk result (λ _. length (left cursor.new) ≤ length (left cursor.old)) }
{
    if cursor.takes(b"[") {
        handler(callee, shape, cursor)
    } else {
        Ok(ArrayVec::new())
    }
}

/// Reads a request behind those that were read.
pub fn one_request(
    requests: &mut ArrayVec<Request, 16>,
    last: u32,
    callee: Module,
    shape: Shape,
    cursor: &mut Cursor<'_>,
) -> Result<u32, LineRefusal>
    requires some { no_token (left cursor.old) ≡ false }
    requires last { last ≡ last_offset requests.old.items }
    requires few { length requests.old.items ≤ 16 }
    ensures goes { (ev : Event) → Goes shape cursor.old cursor.new
        (Requests callee ev requests.old.items) (λ _. Requests callee ev requests.new.items) result }
    ensures last { IfOk result (λ n. n ≡ last_offset requests.new.items) }
    ensures few { length requests.new.items ≤ 16 }
    ensures shorter { IfOk result (λ _. length (left cursor.new) < length (left cursor.old)) }
{
    let place = MarkPlace {
        last,
        count: requests.len(),
    };
    let mark = value(place, shape, cursor)?;
    let ops = handler_if_any(callee, shape, cursor)?;
    requests.push(Request {
        offset: mark.offset,
        urgent: mark.urgent,
        ops,
    });
    Ok(mark.offset)
}
