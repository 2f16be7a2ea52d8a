//! The table of coverage.

ghost use Rattle.std.specs.Prelude.{◌≡◌, ◌↔◌, IsTrue, [], ◌∷◌};
ghost use Rattle.mt_march.specs.Known.{march_c_minus};
ghost use Rattle.mt_march.specs.Value.{element as element_of};
ghost use Rattle.mt_cover.specs.Coverage.{IsTabled};

use crate::class::Class;
use mt_march::{Element, March, Op, Order};
use mt_plan::Algorithm;

/// Whether the element has this order and this operation alone.
fn is_single(element: &Element, order: Order, op: Op) -> bool
    ensures { IsTrue result ↔ (element.now ≡ element_of order (op ∷ [])) }
{
    match element.ops.as_slice() {
        [only] => element.order == order && *only == op,
        _ => false,
    }
}

/// Whether the element has this order and these two operations.
fn is_pair(element: &Element, order: Order, first: Op, second: Op) -> bool
    ensures { IsTrue result ↔ (element.now ≡ element_of order (first ∷ second ∷ [])) }
{
    match element.ops.as_slice() {
        [a, b] => element.order == order && *a == first && *b == second,
        _ => false,
    }
}

/// Whether the march is March C-.
fn is_march_c_minus(march: &March) -> bool
    ensures { IsTrue result ↔ (march.now.elements.items ≡ march_c_minus) }
{
    match march.elements.as_slice() {
        [a, b, c, d, e, f] => {
            is_single(a, Order::Either, Op::W0)
                && is_pair(b, Order::Up, Op::R0, Op::W1)
                && is_pair(c, Order::Up, Op::R1, Op::W0)
                && is_pair(d, Order::Down, Op::R0, Op::W1)
                && is_pair(e, Order::Down, Op::R1, Op::W0)
                && is_single(f, Order::Either, Op::R0)
        }
        _ => false,
    }
}

/// Whether the table of coverage says that the algorithm catches each fault of the class.
/// Where it does not, nothing is claimed.
pub fn covers(algorithm: &Algorithm, class: Class) -> bool
    ensures { IsTrue result ↔ IsTabled algorithm.now class }
{
    match algorithm {
        Algorithm::Checkerboard => class == Class::StuckAt,
        Algorithm::March(march) => class == Class::StuckAt || is_march_c_minus(march),
        Algorithm::WalkPath | Algorithm::Galpat => !matches!(class, Class::Force | Class::State),
        Algorithm::TransparentGalpat => {
            matches!(class, Class::StuckAt | Class::Transition | Class::Invert)
        }
    }
}
