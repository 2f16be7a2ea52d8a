//! Single test accesses.

ghost use Rattle.std.specs.Prelude.{◌≡◌, ◌<◌, ◌+◌, ◌^◌, [], ◌∷◌, true};
ghost use Rattle.mt_seq.specs.Makes.{Makes};
ghost use Rattle.mt_word.specs.Word.{Fits};
ghost use Rattle.mt_word.specs.declared.Width.{Width};
ghost use Rattle.mt_seq.specs.Inner.Ground.{access_for, word_for};
ghost use Rattle.mt_seq.specs.Stepping.{agreed, item_of_access, place_of, FitsAccess, IsLookAnswer, IsNoLook};

use mt_plan::Act;
use mt_port::Port;
use mt_word::{Width, flip};

/// One access of a sequence.
#[derive(Clone, Copy, Debug, PartialEq, Eq)]
pub enum Access {
    /// A read whose answer is saved.
    Look { addr: u32 },
    /// A read that is to answer a word.
    Check { addr: u32, word: u64 },
    /// A write.
    Store { addr: u32, word: u64 },
}

impl Access {
    /// Makes the access, and answers the word that was read, or 0 after a write.
    #[inline(always)]
    pub(crate) fn make<P: Port>(self, port: &mut P) -> u64
        requires held { (P.state port.old).held ≡ true }
        requires inside { place_of self < (P.state port.old).shape.ram }
        requires fits { FitsAccess (P.state port.old).shape.width self }
        requires room { (P.state port.old).count + 1 < 2 ^ 32 }
        ensures made { Makes (item_of_access self ∷ []) (P.state port.old) (P.state port.new) (P.tape port.old)
            (P.tape port.new)
            (agreed (item_of_access self) result) }
        ensures looked { IsLookAnswer (P.state port.old) (item_of_access self) result }
    {
        match self {
            Access::Look { addr } => port.read(addr),
            Access::Check { addr, .. } => port.read(addr),
            Access::Store { addr, word } => {
                port.write(addr, word);
                0
            }
        }
    }

    /// Makes the access, and answers whether it is no checked read that answered another word.
    #[inline(always)]
    pub(crate) fn check<P: Port>(self, port: &mut P) -> bool
        requires held { (P.state port.old).held ≡ true }
        requires inside { place_of self < (P.state port.old).shape.ram }
        requires fits { FitsAccess (P.state port.old).shape.width self }
        requires room { (P.state port.old).count + 1 < 2 ^ 32 }
        ensures { Makes (item_of_access self ∷ []) (P.state port.old) (P.state port.new) (P.tape port.old)
            (P.tape port.new) result }
    {
        let answer = self.make(port);
        self.agrees(answer)
    }

    /// Whether the access is no checked read that answered another word.
    #[inline(always)]
    pub fn agrees(self, answer: u64) -> bool
        ensures { result ≡ agreed (item_of_access self) answer }
    {
        match self {
            Access::Check { word, .. } => answer == word,
            Access::Look { .. } | Access::Store { .. } => true,
        }
    }
}

/// The word of an act on a cell with a background word.
#[inline(always)]
pub(crate) fn word_of(width: Width, back: u64, act: Act) -> u64
    requires { Fits width back }
    ensures word { result ≡ word_for width back act }
    ensures fits { Fits width result }
{
    if act.is_flipped() {
        flip(width, back)
    } else {
        back
    }
}

/// An act as an access, with its word.
#[inline(always)]
pub(crate) fn access_of(addr: u32, word: u64, act: Act) -> Access
    ensures item { item_of_access result ≡ access_for addr word act }
    ensures kind { IsNoLook (item_of_access result) }
    ensures addr { place_of result ≡ addr }
    ensures fits { (width : Width) → Fits width word → FitsAccess width result }
{
    if act.is_write() {
        Access::Store { addr, word }
    } else {
        Access::Check { addr, word }
    }
}
