//! Words of 8, 16, 32 or 64 bits, their bits, and words of a memory packed into bytes.
//!
//! A word has the type `u64` at every width. Bit 0 is the least one.
#![tactic(auto)]

ghost use Rattle.std.specs.Prelude.{◌≡◌, ◌≢◌, ◌<◌, ◌^◌, ◌-◌, ◌↔◌, ℕ, IsTrue};
ghost use Rattle.mt_word.specs.Word.{width_bits, Fits, complement_of, has_bit, put_bit};

mod laws;
mod packed;
mod sum;
#[cfg(test)]
mod tests;

pub use laws::bits_are_put;
pub use packed::Words;
pub use sum::wrapping_sum;

/// How many bits a word has: 8, 16, 32 or 64.
#[derive(Clone, Copy, Debug, PartialEq, Eq)]
pub enum Width {
    W8,
    W16,
    W32,
    /// Every `u64` is a word.
    W64,
}

/// The answer of a call that found no memory.
#[derive(Clone, Copy, Debug, PartialEq, Eq)]
pub struct NoMemory;

/// The number of bits of a word: 8, 16, 32 or 64.
pub fn bits(width: Width) -> u32
    ensures { result ≡ width_bits width }
{
    match width {
        Width::W8 => 8,
        Width::W16 => 16,
        Width::W32 => 32,
        Width::W64 => 64,
    }
}

// The largest word.
fn mask(width: Width) -> u64
    ensures { result ≡ 2 ^ width_bits width - 1 }
{
    u64::MAX >> (64 - bits(width))
}

/// Whether the word is below 2 to the power of the width.
pub fn fits(width: Width, word: u64) -> bool
    ensures { IsTrue result ↔ Fits width word }
{
    word <= mask(width)
}

/// The complement of a word: each of its bits is flipped.
pub fn flip(width: Width, word: u64) -> u64
    requires { Fits width word }
    ensures word { result ≡ complement_of width word }
    ensures fits { Fits width result }
{
    word ^ mask(width)
}

/// One bit of a word, where `at` is below 64.
pub fn bit(word: u64, at: u8) -> bool
    requires { at < 64 }
    ensures { result ≡ has_bit word at }
{
    (word >> at) & 1 == 1
}

/// The word with bit `at` set to `value`; every other bit stays.
pub fn with_bit(width: Width, word: u64, at: u8, value: bool) -> u64
    requires word { Fits width word }
    requires at { at < width_bits width }
    ensures value { result ≡ put_bit word at value }
    ensures here { has_bit result at ≡ value }
    ensures others { (i : ℕ) → i ≢ at → has_bit result i ≡ has_bit word i }
    ensures fits { Fits width result }
{
    let one = 1u64 << at;
    if value { word | one } else { word & !one }
}
