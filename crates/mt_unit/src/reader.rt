//! The reader of the tables: the numbers that a C text has.

ghost use Rattle.std.specs.Prelude.{◌≡◌, ◌++◌, IfOk, OnOk, true};
ghost use Rattle.mt_unit.specs.Reading.{after_byte, ended_by, fresh, grown, is_digit, is_word_byte, numbers_in};

use std::alloc::{AllocError, Global};

/// Where a text stands: between words, in a word, or after the digits of a number.
#[derive(Clone, Copy, Debug, PartialEq, Eq)]
pub enum Place {
    Between,
    Word,
    Number { value: u64 },
}

fn is_digit(byte: u8) -> bool
    ensures { result ≡ is_digit byte }
{
    b'0' <= byte && byte <= b'9'
}

fn is_word_byte(byte: u8) -> bool
    ensures { result ≡ is_word_byte byte }
{
    is_digit(byte)
        || (b'A' <= byte && byte <= b'Z')
        || (b'a' <= byte && byte <= b'z')
        || byte == b'_'
}

/// A number with one digit more.
fn grown(value: u64, byte: u8) -> Place
    requires { is_digit byte ≡ true }
    ensures { result ≡ grown value byte }
{
    let next = 10 * u128::from(value) + u128::from(byte - b'0');
    if next <= u128::from(u64::MAX) {
        Place::Number { value: next as u64 }
    } else {
        Place::Word
    }
}

/// Where a text stands after a byte that ends what was before it.
fn fresh(byte: u8) -> Place
    ensures { result ≡ fresh byte }
{
    if is_word_byte(byte) {
        Place::Word
    } else {
        Place::Between
    }
}

fn after_byte(place: Place, byte: u8) -> Place
    ensures { result ≡ after_byte place byte }
{
    match place {
        Place::Between => {
            if is_digit(byte) {
                grown(0, byte)
            } else {
                fresh(byte)
            }
        }
        Place::Word => fresh(byte),
        Place::Number { value } => {
            if is_digit(byte) {
                grown(value, byte)
            } else {
                fresh(byte)
            }
        }
    }
}

/// Appends the number that ends with a byte, if one does.
fn push_ended(place: Place, byte: u8, numbers: &mut Vec<u64>) -> Result<(), AllocError>
    ensures { OnOk result (numbers.new.items ≡ numbers.old.items ++ ended_by place byte) }
{
    match place {
        Place::Number { value } if byte == b'u' => {
            numbers.push(value)?;
            Ok(())
        }
        Place::Number { .. } => Ok(()),
        Place::Between => Ok(()),
        Place::Word => Ok(()),
    }
}

#[tactic(auto, unfolding(crate::specs::Reading::numbers_in))]
/// The numbers of a C text, in order: digits that are no part of a word, with a `u` right after them.
pub fn numbers_in(alloc: Global, text: &[u8]) -> Result<Vec<u64>, AllocError>
    ensures { IfOk result (λ numbers. numbers.items ≡ numbers_in text.now) }
{
    let mut numbers = Vec::new(alloc);
    let mut place = Place::Between;
    for byte in text {
        push_ended(place, *byte, &mut numbers)?;
        place = after_byte(place, *byte);
    }
    Ok(numbers)
}
