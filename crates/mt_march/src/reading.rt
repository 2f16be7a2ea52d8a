//! The reader.

ghost use Rattle.std.specs.Prelude.{◌≡◌, ◌<◌, ◌≤◌, ◌+◌, true, false, if◌then◌else◌, List, [], ◌∷◌, length, IfOk, IfErr, IfSome, IfNone, None, Some};
ghost use Rattle.mt_march.specs.Grammar.{SpellsMarch};
ghost use Rattle.mt_march.specs.Scan.{too_long, first, is_order, is_letter, rule_found};
ghost use Rattle.mt_march.specs.Value.{march_of, op_of, order_of, element, put};
ghost use Rattle.mt_march.specs.Building.{element_count, finished};
ghost use Rattle.mt_march.specs.declared.march.Element.{Element};
ghost use Rattle.mt_march.specs.declared.march.Op.{Op};
ghost use Rattle.mt_march.specs.Reading.{Refuses, march_refusal};
ghost use Rattle.mt_march.specs.Accepted.{IsAcceptedMarch};

use crate::limits::{close_place, first, has_read, read_before_write, too_long, wrong_expectation};
use crate::march::{Element, March, MarchKind, MarchRefusal, Op, Order};
use crate::spelling::spelling_fault;
use arrayvec::ArrayVec;

fn order_of(byte: u8) -> Order
    ensures { result ≡ order_of byte }
{
    match byte {
        b'u' => Order::Up,
        b'd' => Order::Down,
        _ => Order::Either,
    }
}

fn op_of(letter: u8, digit: u8) -> Op
    ensures { result ≡ op_of letter digit }
{
    match (letter == b'r', digit == b'0') {
        (true, true) => Op::R0,
        (true, false) => Op::R1,
        (false, true) => Op::W0,
        (false, false) => Op::W1,
    }
}

/// The elements so far, and the one that is being read.
#[derive(Drop)]
struct Builder {
    elements: ArrayVec<Element, 16>,
    order: Option<Order>,
    ops: ArrayVec<Op, 8>,
}

/// Ends the element that is being read.
fn finish(builder: Builder) -> ArrayVec<Element, 16>
    requires { element_count builder ≤ 16 }
    ensures { result.items ≡ finished builder ([], []) }
{
    let Builder {
        mut elements,
        order,
        ops,
    } = builder;
    match order {
        Some(order) => elements.push(Element { order, ops }),
        None => {}
    }
    elements
}

fn begin(builder: Builder, order: Order) -> Builder
    requires { element_count builder < 16 }
    ensures whole { (later : List Op × List Element)
        → finished result later ≡ finished builder ([], element order later.0 ∷ later.1) }
    ensures elements { element_count result ≡ element_count builder + 1 }
    ensures ops { length result.ops.items ≡ 0 }
{
    Builder {
        elements: finish(builder),
        order: Some(order),
        ops: ArrayVec::new(),
    }
}

fn add(builder: Builder, op: Op) -> Builder
    requires { length builder.ops.items < 8 }
    ensures whole { (later : List Op × List Element)
        → finished result later ≡ finished builder (op ∷ later.0, later.1) }
    ensures elements { element_count result ≡ element_count builder }
    ensures ops { length result.ops.items ≡ length builder.ops.items + 1 }
{
    let mut builder = builder;
    builder.ops.push(op);
    builder
}

fn step(builder: Builder, byte: u8, after: u8) -> Builder
    requires elements { is_order byte ≡ true → element_count builder < 16 }
    requires ops { is_order byte ≡ false → is_letter byte ≡ true → length builder.ops.items < 8 }
    ensures whole { (later : List Op × List Element) → finished result later ≡ finished builder (put byte after later) }
    ensures elements { element_count result
        ≡ (if is_order byte then element_count builder + 1 else element_count builder) }
    ensures ops { length result.ops.items
        ≡ (if is_order byte then 0
        else (if is_letter byte then length builder.ops.items + 1 else length builder.ops.items)) }
{
    match byte {
        b'u' | b'd' | b'*' => begin(builder, order_of(byte)),
        b'r' | b'w' => add(builder, op_of(byte, after)),
        _ => builder,
    }
}

/// The elements that the text names.
fn build(text: &[u8]) -> ArrayVec<Element, 16>
    requires { too_long 1 0 0 text.now ≡ None }
    ensures { result.items ≡ march_of text.now }
{
    let mut builder = Builder {
        elements: ArrayVec::new(),
        order: None,
        ops: ArrayVec::new(),
    };
    for (i, byte) in text.iter().enumerate() {
        let (_, later) = text.split_at(i + 1);
        builder = step(builder, *byte, first(later));
    }
    finish(builder)
}

fn refusal(kind: MarchKind, place: usize) -> MarchRefusal
    ensures { result ≡ record { kind = kind; place = place } }
{
    MarchRefusal { kind, place }
}

/// The first of the rules on a text of the grammar that is broken.
#[tactic(auto, unfolding(crate::specs::Scan::rule_found))]
fn rule_broken(text: &[u8]) -> Option<MarchRefusal>
    ensures { result ≡ rule_found text.now }
{
    if let Some(place) = too_long(text) {
        return Some(refusal(MarchKind::TooLong, place));
    }
    if let Some(place) = read_before_write(text) {
        return Some(refusal(MarchKind::ReadBeforeWrite, place));
    }
    if let Some(place) = wrong_expectation(text) {
        return Some(refusal(MarchKind::WrongExpectation, place));
    }
    if !has_read(text, b'0') || !has_read(text, b'1') {
        return Some(refusal(MarchKind::OneValueOnly, close_place(text)));
    }
    None
}

/// Reads a march, or answers the least rule that is broken with its place.
pub fn read_march(text: &[u8]) -> Result<March, MarchRefusal>
    ensures ok { IfOk result (λ march. SpellsMarch text.now march.elements.items) }
    ensures accepted { IfOk result (λ march. IsAcceptedMarch march.elements.items) }
    // A refusal is that of the least broken rule, at its place.
    ensures err { IfErr result (λ refusal. Refuses text.now refusal) }

    // The same as functions of the text.
    ensures value { IfOk result (λ march. march.elements.items ≡ march_of text.now) }
    ensures unrefused { IfOk result (λ _. march_refusal text.now ≡ None) }
    ensures refused { IfErr result (λ refusal. march_refusal text.now ≡ Some refusal) }
{
    if let Some(place) = spelling_fault(text) {
        return Err(MarchRefusal {
            kind: MarchKind::Spelling,
            place,
        });
    }
    if let Some(refusal) = rule_broken(text) {
        return Err(refusal);
    }
    Ok(March {
        elements: build(text),
    })
}
