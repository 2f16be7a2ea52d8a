//! Values at their places.

ghost use Rattle.std.specs.Prelude.{◌≡◌, ◌==◌, ◌<◌, ◌^◌, false, refl, Err, nat_lt};
ghost use Rattle.std.specs.Str.{bytes_eq};
ghost use Rattle.mt_word.specs.Word.{width_bits};
ghost use Rattle.mt_text.specs.Tokens.{begins_word};
ghost use Rattle.mt_text.specs.Values.{Data, Bit, is_outside, is_first_address, size_of, is_first_word};
ghost use Rattle.mt_text.specs.Forms.{Form, value, spot, done, step, mapped_ok};
ghost use Rattle.mt_text.specs.Reader.{Reads, is_done, slot_of, spot_slot_of};
ghost use Rattle.mt_text.specs.Lines.{direction};

use crate::cursor::Cursor;
use crate::line::{LineKind, LineRefusal};
use crate::token::{is_word, number_of, spot_of};
use mt_fault::Spot;
use mt_hex::hex_of;
use mt_port::Shape;
use mt_word::{Width, bits};

pub fn refused<T>(kind: LineKind, place: u32) -> Result<T, LineRefusal>
    ensures { result ≡ Err (record { kind = kind; place = place }) }
{
    Err(LineRefusal { kind, place })
}

pub fn is(bytes: &[u8], word: &[u8]) -> bool
    ensures { result ≡ bytes_eq bytes.now word.now }
{
    bytes == word
}

/// A place of a value on a line.
pub trait Place: Copy {
    type Value;

    /// What may stand there.
    ghost form: { Self → Form Self.Value };

    /// The value that a token spells there, or the first rule of the place that it breaks.
    fn judge(self, shape: Shape, bytes: &[u8]) -> Result<Self::Value, LineKind>
        ensures { step shape (form self) bytes.now ≡ mapped_ok (λ x. done x) result };

    /// One token stands there.
    ghost goes_on: { (place : Self) → is_done (form place) ≡ false };
}

/// Reads a value in its place.
pub fn value<P: Place>(
    place: P,
    shape: Shape,
    cursor: &mut Cursor<'_>,
) -> Result<P::Value, LineRefusal>
    ensures { Reads shape (P.form place) cursor.old cursor.new result }
{
    let token = cursor.next()?;
    match place.judge(shape, token.bytes) {
        Ok(value) => Ok(value),
        Err(kind) => refused(kind, token.place),
    }
}

fn begins_word(bytes: &[u8]) -> bool
    ensures { result ≡ begins_word bytes.now }
{
    match bytes {
        [] => false,
        [byte, ..] => is_word(*byte),
    }
}

/// The place of a number, by what it stands for.
#[derive(Clone, Copy)]
pub enum NumberPlace {
    Any,
    Ram,
    Flash,
    /// A word of the RAM other than this one.
    OtherRam(u32),
}

fn is_outside(place: NumberPlace, shape: Shape, n: u32) -> bool
    ensures { result ≡ is_outside shape (slot_of place) n }
{
    match place {
        NumberPlace::Any => false,
        NumberPlace::Ram | NumberPlace::OtherRam(_) => n >= shape.ram,
        NumberPlace::Flash => n >= shape.flash,
    }
}

fn is_first_address(place: NumberPlace, n: u32) -> bool
    ensures { result ≡ is_first_address (slot_of place) n }
{
    match place {
        NumberPlace::OtherRam(first) => n == first,
        NumberPlace::Any | NumberPlace::Ram | NumberPlace::Flash => false,
    }
}

impl Place for NumberPlace {
    type Value = u32;

    ghost form = { λ place. value (slot_of place) (λ n. done n) };

    ghost goes_on = { λ place. refl };

    #[tactic(auto, unfolding(crate::specs::Values::value_at))]
    fn judge(self, shape: Shape, bytes: &[u8]) -> Result<u32, LineKind> {
        if !begins_word(bytes) {
            return Err(LineKind::Spelling);
        }
        let Some(n) = number_of(bytes) else {
            return Err(LineKind::Number);
        };
        if is_outside(self, shape, n) {
            return Err(LineKind::Address);
        }
        if is_first_address(self, n) {
            return Err(LineKind::FaultRefused);
        }
        Ok(n)
    }
}

/// The place of a word.
#[derive(Clone, Copy)]
pub struct DataPlace;

/// Whether the word is below 2 to the width.
fn fits(width: Width, word: u64) -> bool
    ensures { result ≡ nat_lt word (2 ^ width_bits width) }
{
    mt_word::fits(width, word)
}

impl Place for DataPlace {
    type Value = u64;

    ghost form = { λ place. value Data (λ n. done n) };

    ghost goes_on = { λ place. refl };

    #[tactic(auto, unfolding(crate::specs::Values::value_at))]
    fn judge(self, shape: Shape, bytes: &[u8]) -> Result<u64, LineKind> {
        if !begins_word(bytes) {
            return Err(LineKind::Spelling);
        }
        let Some(word) = hex_of(bytes) else {
            return Err(LineKind::Number);
        };
        if !fits(shape.width, word) {
            return Err(LineKind::WordTooWide);
        }
        Ok(word)
    }
}

/// The place of a bit.
#[derive(Clone, Copy)]
pub struct BitPlace;

impl Place for BitPlace {
    type Value = bool;

    ghost form = { λ place. value Bit (λ n. done (n == 1)) };

    ghost goes_on = { λ place. refl };

    #[tactic(auto, unfolding(crate::specs::Values::value_at))]
    fn judge(self, _shape: Shape, bytes: &[u8]) -> Result<bool, LineKind> {
        if is(bytes, b"0") {
            Ok(false)
        } else if is(bytes, b"1") {
            Ok(true)
        } else if begins_word(bytes) {
            Err(LineKind::Number)
        } else {
            Err(LineKind::Spelling)
        }
    }
}

/// The place of a direction: whether it rises.
#[derive(Clone, Copy)]
pub struct DirectionPlace;

impl Place for DirectionPlace {
    type Value = bool;

    ghost form = { λ place. direction (λ up. done up) };

    ghost goes_on = { λ place. refl };

    fn judge(self, _shape: Shape, bytes: &[u8]) -> Result<bool, LineKind> {
        if is(bytes, b"up") {
            Ok(true)
        } else if is(bytes, b"down") {
            Ok(false)
        } else {
            Err(LineKind::Spelling)
        }
    }
}

/// The place of a spot, by its memory.
#[derive(Clone, Copy)]
pub enum SpotPlace {
    Ram,
    /// A word of the RAM other than this one.
    OtherRam(u32),
    Flash,
}

fn size(place: SpotPlace, shape: Shape) -> u32
    ensures { result ≡ size_of shape (spot_slot_of place) }
{
    match place {
        SpotPlace::Ram | SpotPlace::OtherRam(_) => shape.ram,
        SpotPlace::Flash => shape.flash,
    }
}

fn is_first_word(place: SpotPlace, word: u32) -> bool
    ensures { result ≡ is_first_word (spot_slot_of place) word }
{
    match place {
        SpotPlace::OtherRam(first) => word == first,
        SpotPlace::Ram | SpotPlace::Flash => false,
    }
}

impl Place for SpotPlace {
    type Value = Spot;

    ghost form = { λ place. spot (spot_slot_of place) (λ s. done s) };

    ghost goes_on = { λ place. refl };

    #[tactic(auto, unfolding(crate::specs::Values::spot_at))]
    fn judge(self, shape: Shape, bytes: &[u8]) -> Result<Spot, LineKind> {
        if !begins_word(bytes) {
            return Err(LineKind::Spelling);
        }
        let Some((word, bit)) = spot_of(bytes) else {
            return Err(LineKind::Number);
        };
        if word >= size(self, shape) {
            return Err(LineKind::Address);
        }
        if bit >= bits(shape.width) || is_first_word(self, word) {
            return Err(LineKind::FaultRefused);
        }
        Ok(Spot {
            word,
            bit: bit as u8,
        })
    }
}
