//! Canonical lines.

ghost use Rattle.std.specs.Prelude.{◌≡◌, ◌≤◌, ◌+◌, ◌*◌, ◌++◌, ◌∷◌, [], codes, decimal, length, OnOk, OnErr};
ghost use Rattle.std.specs.Io.KnownBytes.{Appends};
ghost use Rattle.mt_port.specs.Causes.{HasCause};
ghost use Rattle.mt_port.specs.Streams.{AppendsFront};
ghost use Rattle.mt_text.specs.Lines.{line};
ghost use Rattle.mt_text.specs.Canonical.{text_of, further_ops, handler_pieces, request_pieces, requests_pieces, canonical};

use crate::event_text::{LineText, push_event, push_op};
use crate::line::{Event, Line};
use arrayvec::ArrayVec;
use mt_fault::Fault;
use mt_hex::{push_bytes, push_number};
use mt_port::{Failed, HandlerOp, Request, Shape, Sink, put};
use mt_word::Width;

/// Appends the operations behind the first, and the closing bracket.
fn push_further_ops(out: &mut LineText, width: Width, ops: &[HandlerOp])
    requires { length out.old.items + 43 * length ops.now + 1 ≤ 6144 }
    ensures text { out.new.items ≡ out.old.items ++ text_of (further_ops width ops.now) }
    ensures short { length out.new.items ≤ length out.old.items + 43 * length ops.now + 1 }
{
    for op in ops {
        out.push(b';');
        push_op(out, true, width, *op);
    }
    out.push(b']');
}

/// Appends a handler, where it has operations.
fn push_handler(out: &mut LineText, width: Width, ops: &[HandlerOp])
    requires few { length ops.now ≤ 8 }
    requires room { length out.old.items + 346 ≤ 6144 }
    ensures text { out.new.items ≡ out.old.items ++ text_of (handler_pieces width ops.now) }
    ensures short { length out.new.items ≤ length out.old.items + 346 }
{
    if let [op, further @ ..] = ops {
        out.push(b'[');
        push_op(out, false, width, *op);
        push_further_ops(out, width, further);
    }
}

fn push_request(out: &mut LineText, width: Width, request: &Request)
    requires { length out.old.items + 358 ≤ 6144 }
    ensures text { out.new.items ≡ out.old.items ++ text_of (request_pieces width request.now) }
    ensures short { length out.new.items ≤ length out.old.items + 358 }
{
    push_bytes(out, if request.urgent { b" !" } else { b" @" });
    push_number(out, request.offset);
    push_handler(out, width, request.ops.as_slice());
}

fn push_requests(out: &mut LineText, width: Width, requests: &[Request])
    requires few { length requests.now ≤ 16 }
    requires room { length out.old.items + 5728 ≤ 6144 }
    ensures text { out.new.items ≡ out.old.items ++ text_of (requests_pieces width requests.now) }
    ensures short { length out.new.items ≤ length out.old.items + 5728 }
{
    for request in requests {
        push_request(out, width, request);
    }
}

/// Appends the canonical text of a line, with a line feed, to an empty text.
#[tactic(auto, unfolding(crate::specs::Canonical::canonical))]
pub fn push_line(out: &mut LineText, line: &Line, width: Width)
    requires { out.old.items ≡ [] }
    ensures { out.new.items ≡ canonical width line.now ++ codes "\n" }
{
    push_event(out, width, line.event);
    push_requests(out, width, line.requests.as_slice());
    out.push(b'\n');
}

/// Appends the canonical text of the line that injects a fault, with a line feed, to an empty text.
#[tactic(auto, unfolding(crate::specs::Canonical::canonical))]
pub fn push_fault_line(out: &mut LineText, fault: Fault, width: Width)
    requires { out.old.items ≡ [] }
    ensures { out.new.items ≡ canonical width (line (Event.Inject fault) []) ++ codes "\n" }
{
    push_event(out, width, Event::Inject(fault));
    out.push(b'\n');
}

/// Writes the canonical text of a line, with a line feed. Of the shape the width alone matters: words are written in
/// width divided by 4 digits.
pub fn write_line<K: Sink>(line: &Line, shape: Shape, sink: &mut K) -> Result<(), Failed>
    ensures ok { OnOk result (Appends (K.held sink.old) (K.held sink.new)
        (canonical shape.width line.now ++ codes "\n")) }
    ensures err { OnErr result (AppendsFront (K.held sink.old) (K.held sink.new)
        (canonical shape.width line.now ++ codes "\n")) }
    ensures cause { HasCause (K.faults sink.old) (K.faults sink.new) result }
{
    let mut text = ArrayVec::new();
    push_line(&mut text, line, shape.width);
    put(sink, &text)
}
