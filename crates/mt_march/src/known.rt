//! Marches of the literature, and copies.

ghost use Rattle.std.specs.Prelude.{◌≡◌, ◌≤◌, length};
ghost use Rattle.mt_march.specs.Value.{element as element_lem};
ghost use Rattle.mt_march.specs.Accepted.{IsAcceptedMarch};
ghost use Rattle.mt_march.specs.Known.{march_c_minus, mats_plus};

use crate::march::{Element, March, Op, Order};
use arrayvec::ArrayVec;

/// Copies at most eight operations.
fn copy_of(ops: &[Op]) -> ArrayVec<Op, 8>
    requires { length ops.now ≤ 8 }
    ensures { result.items ≡ ops.now }
{
    let mut copy = ArrayVec::new();
    for op in ops {
        copy.push(*op);
    }
    copy
}

fn element(order: Order, ops: &[Op]) -> Element
    requires { length ops.now ≤ 8 }
    ensures { result ≡ element_lem order ops.now }
{
    Element {
        order,
        ops: copy_of(ops),
    }
}

impl Element {
    /// An equal element.
    pub fn copy(&self) -> Element
        ensures { result ≡ self.now }
    {
        element(self.order, self.ops.as_slice())
    }
}

impl March {
    /// An equal march.
    pub fn copy(&self) -> March
        ensures { result ≡ self.now }
    {
        let mut elements = ArrayVec::new();
        for element in self.elements.as_slice() {
            elements.push(element.copy());
        }
        March { elements }
    }
}

/// March C-, `{*(w0); u(r0,w1); u(r1,w0); d(r0,w1); d(r1,w0); *(r0)}`: van de Goor, Testing Semiconductor Memories.
pub fn march_c_minus() -> March
    ensures value { result.elements.items ≡ march_c_minus }
    ensures accepted { IsAcceptedMarch result.elements.items }
{
    let mut elements = ArrayVec::new();
    elements.push(element(Order::Either, &[Op::W0]));
    elements.push(element(Order::Up, &[Op::R0, Op::W1]));
    elements.push(element(Order::Up, &[Op::R1, Op::W0]));
    elements.push(element(Order::Down, &[Op::R0, Op::W1]));
    elements.push(element(Order::Down, &[Op::R1, Op::W0]));
    elements.push(element(Order::Either, &[Op::R0]));
    March { elements }
}

/// MATS+, `{*(w0); u(r0,w1); d(r1,w0)}`: van de Goor, Testing Semiconductor Memories.
pub fn mats_plus() -> March
    ensures value { result.elements.items ≡ mats_plus }
    ensures accepted { IsAcceptedMarch result.elements.items }
{
    let mut elements = ArrayVec::new();
    elements.push(element(Order::Either, &[Op::W0]));
    elements.push(element(Order::Up, &[Op::R0, Op::W1]));
    elements.push(element(Order::Down, &[Op::R1, Op::W0]));
    March { elements }
}
