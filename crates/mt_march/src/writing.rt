//! The canonical text.

ghost use Rattle.std.specs.Prelude.{◌≡◌, ◌<◌, ◌≤◌, ◌+◌, ◌*◌, List, [], ◌∷◌, ◌++◌, length};
ghost use Rattle.mt_march.specs.Grammar.{Token, op_token, order_token, all_ops, element_tokens, more_elements, IsNonEmpty, IsMarch};
ghost use Rattle.mt_march.specs.declared.march.Element.{Element};
ghost use Rattle.mt_march.specs.Canonical.{text_of, canonical};

use crate::march::{Element, March, Op, Order};
use arrayvec::ArrayVec;

type Text = ArrayVec<u8, 448>;

fn push_bytes(out: &mut Text, bytes: &[u8])
    requires { length out.old.items + length bytes.now ≤ 448 }
    ensures { out.new.items ≡ out.old.items ++ bytes.now }
{
    for byte in bytes {
        out.push(*byte);
    }
}

fn push_op(out: &mut Text, op: Op)
    requires { length out.old.items + 2 ≤ 448 }
    ensures items { out.new.items ≡ out.old.items ++ op_token op }
    ensures len { length out.new.items ≡ length out.old.items + 2 }
{
    match op {
        Op::R0 => push_bytes(out, b"r0"),
        Op::R1 => push_bytes(out, b"r1"),
        Op::W0 => push_bytes(out, b"w0"),
        Op::W1 => push_bytes(out, b"w1"),
    }
}

fn push_order(out: &mut Text, order: Order)
    requires { length out.old.items + 1 ≤ 448 }
    ensures items { out.new.items ≡ out.old.items ++ order_token order }
    ensures len { length out.new.items ≡ length out.old.items + 1 }
{
    match order {
        Order::Up => out.push(b'u'),
        Order::Down => out.push(b'd'),
        Order::Either => out.push(b'*'),
    }
}

/// Appends the operations and the closing parenthesis.
fn push_ops(out: &mut Text, ops: &[Op])
    requires some { IsNonEmpty ops.now }
    requires few { length ops.now ≤ 8 }
    requires room { length out.old.items + 24 ≤ 448 }
    ensures text { (tokens : List Token)
        → out.new.items ++ text_of tokens ≡ out.old.items ++ text_of (all_ops ops.now tokens) }
    ensures len { length out.new.items ≤ length out.old.items + 24 }
{
    if let [first, rest @ ..] = ops {
        push_op(out, *first);
        for op in rest {
            out.push(b',');
            push_op(out, *op);
        }
        out.push(b')');
    }
}

fn push_element(out: &mut Text, element: &Element)
    requires some { IsNonEmpty element.now.ops.items }
    requires room { length out.old.items + 26 ≤ 448 }
    ensures text { (tokens : List Token)
        → out.new.items ++ text_of tokens ≡ out.old.items ++ text_of (element_tokens element.now tokens) }
    ensures len { length out.new.items ≤ length out.old.items + 26 }
{
    push_order(out, element.order);
    out.push(b'(');
    push_ops(out, element.ops.as_slice());
}

/// The canonical text of a march: a space after each semicolon, and no other.
pub fn march_text(march: &March) -> ArrayVec<u8, 448>
    requires { IsMarch march.now.elements.items }
    ensures text { result.items ≡ canonical march.now.elements.items }
    ensures few { length result.items ≤ 448 }
{
    let mut out = ArrayVec::new();
    if let [first, rest @ ..] = march.elements.as_slice() {
        out.push(b'{');
        push_element(&mut out, first);
        for element in rest {
            push_bytes(&mut out, b"; ");
            push_element(&mut out, element);
        }
        out.push(b'}');
    }
    out
}
