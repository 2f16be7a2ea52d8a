//! Sums of words.

ghost use Rattle.std.specs.Prelude.{◌≡◌, ◌+◌, ◌%◌, ◌^◌};
ghost use Rattle.mt_word.specs.Word.{width_bits, Fits};

use crate::{Width, mask};

/// The sum of two words modulo 2 to the width.
pub fn wrapping_sum(width: Width, one: u64, other: u64) -> u64
    requires one { Fits width one }
    requires other { Fits width other }
    ensures sum { result ≡ (one + other) % 2 ^ width_bits width }
    ensures fits { Fits width result }
{
    one.wrapping_add(other) & mask(width)
}
