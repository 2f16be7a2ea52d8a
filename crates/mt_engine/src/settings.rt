//! What a test is to be.

ghost use Rattle.std.specs.Prelude.{◌≡◌, IfSome, None, false};
ghost use Rattle.mt_plan.specs.Plan.{IsAccepted};
ghost use Rattle.mt_seq.specs.Sequence.{is_transparent};
ghost use Rattle.mt_engine.specs.Setup.{is_transparent_name, named};

use mt_march::{MarchRefusal, march_c_minus, mats_plus};
use mt_plan::{Algorithm, Policy};
use mt_word::Width;

/// What a test of a slice is to be, beside its algorithm.
#[derive(Clone, Copy, Debug, PartialEq, Eq)]
pub struct Settings {
    pub width: Width,
    /// Whether the words are kept, or filled.
    pub policy: Policy,
    /// The background word, which the algorithm writes beside its complement.
    pub background: u64,
    /// The word that a destructive test leaves.
    pub fill: u64,
    /// The address of the slice's first word.
    pub first: u32,
    /// How many words the slice has: 1 to 64.
    pub count: u32,
}

/// Why no test is made.
#[derive(Clone, Copy, Debug, PartialEq, Eq)]
pub enum Refusal {
    /// The slice has no word, or more than 64.
    Count,
    /// The sum of the first address and the number of words is not below 2 to the power of 32.
    Addresses,
    /// The background is no word of the width.
    Background,
    /// The fill is no word of the width.
    Fill,
    /// The text of the algorithm has more than 448 bytes. Each accepted march has a text of no more.
    Length,
    /// Transparent Galpat, which takes its background from the words, is to fill them.
    TransparentFill,
    /// The text is no name of an algorithm, and is refused as a march.
    March(MarchRefusal),
}

/// The algorithm of a name.
#[tactic(auto, unfolding(crate::specs::Setup::named))]
#[inline(always)]
pub(crate) fn algorithm_named(text: &[u8]) -> Option<Algorithm>
    ensures named { result ≡ named text.now }
    ensures accepted { IfSome result IsAccepted }
    ensures transparent { IfSome result (λ algorithm. is_transparent algorithm ≡ is_transparent_name text.now) }
    ensures other { result ≡ None → is_transparent_name text.now ≡ false }
{
    if text == b"checkerboard".as_slice() {
        Some(Algorithm::Checkerboard)
    } else if text == b"walk-path".as_slice() {
        Some(Algorithm::WalkPath)
    } else if text == b"galpat".as_slice() {
        Some(Algorithm::Galpat)
    } else if text == b"transparent-galpat".as_slice() {
        Some(Algorithm::TransparentGalpat)
    } else if text == b"march-c-minus".as_slice() {
        Some(Algorithm::March(march_c_minus()))
    } else if text == b"mats-plus".as_slice() {
        Some(Algorithm::March(mats_plus()))
    } else {
        None
    }
}
