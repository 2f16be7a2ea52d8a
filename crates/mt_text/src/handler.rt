//! Handlers of requests.

ghost use Rattle.std.specs.Prelude.{◌≡◌, true, false, Err, IfOk};
ghost use Rattle.mt_port.specs.declared.board.Shape.{Shape};
ghost use Rattle.mt_port.specs.declared.request.Module.{Module};
ghost use Rattle.mt_port.specs.declared.request.Module.TheVariants.{RamTst, FlsTst};
ghost use Rattle.mt_text.specs.Forms.{step};
ghost use Rattle.mt_text.specs.Reader.{Reads, ReadsFrom};
ghost use Rattle.mt_text.specs.Lines.{op_form, is_op_word};

use crate::call::{fls_handler_call, ram_handler_call};
use crate::cursor::Cursor;
use crate::event::app_op;
use crate::line::{LineKind, LineRefusal};
use crate::token::Token;
use crate::value::{is, refused};
use mt_port::{HandlerOp, Module, Shape};

#[tactic(auto, unfolding(crate::specs::Reader::read, crate::specs::Lines::op_form))]
fn ram_handler_op(
    word: &Token<'_>,
    shape: Shape,
    cursor: &mut Cursor<'_>,
) -> Result<HandlerOp, LineRefusal>
    ensures { ReadsFrom shape (op_form RamTst false) word.now cursor.old cursor.new result }
{
    if is(word.bytes, b"ram") {
        Ok(HandlerOp::Call(ram_handler_call(shape, cursor)?))
    } else if is(word.bytes, b"fls") {
        refused(LineKind::NotInHandler, word.place)
    } else {
        Ok(HandlerOp::App(app_op(word, shape, cursor)?))
    }
}

#[tactic(auto, unfolding(crate::specs::Reader::read, crate::specs::Lines::op_form))]
fn fls_handler_op(
    word: &Token<'_>,
    shape: Shape,
    cursor: &mut Cursor<'_>,
) -> Result<HandlerOp, LineRefusal>
    ensures { ReadsFrom shape (op_form FlsTst false) word.now cursor.old cursor.new result }
{
    if is(word.bytes, b"ram") {
        refused(LineKind::NotInHandler, word.place)
    } else if is(word.bytes, b"fls") {
        Ok(HandlerOp::Call(fls_handler_call(shape, cursor)?))
    } else {
        Ok(HandlerOp::App(app_op(word, shape, cursor)?))
    }
}

/// Whether an operation may begin with the word.
fn is_op_word(word: &Token<'_>) -> bool
    ensures { result ≡ is_op_word word.now.bytes.now }
{
    is(word.bytes, b"ram")
        || is(word.bytes, b"fls")
        || is(word.bytes, b"r")
        || is(word.bytes, b"w")
        || is(word.bytes, b"add")
        || is(word.bytes, b"copy")
        || is(word.bytes, b"f")
}

/// The rule that a word breaks in a full handler.
#[tactic(auto, unfolding(crate::specs::Lines::op_form, crate::specs::Lines::app_op))]
fn broken_when_full(word: &Token<'_>) -> LineKind
    ensures { (shape : Shape) (callee : Module) → step shape (op_form callee true) word.now.bytes.now ≡ Err result }
{
    if is_op_word(word) {
        LineKind::TooManyOps
    } else {
        LineKind::Spelling
    }
}

/// Reads an operation of a handler, which may be full.
#[tactic(auto, unfolding(crate::specs::Reader::read))]
pub fn handler_op(
    full: bool,
    callee: Module,
    shape: Shape,
    cursor: &mut Cursor<'_>,
) -> Result<HandlerOp, LineRefusal>
    ensures reads { Reads shape (op_form callee full) cursor.old cursor.new result }
    ensures room { IfOk result (λ _. full ≡ false) }
{
    let word = cursor.next()?;
    if full {
        return refused(broken_when_full(&word), word.place);
    }
    match callee {
        Module::RamTst => ram_handler_op(&word, shape, cursor),
        Module::FlsTst => fls_handler_op(&word, shape, cursor),
    }
}
