//! The words of a line, by their index.

ghost use Rattle.std.specs.Prelude.{◌≡◌, ◌<◌, ◌≤◌, ◌^◌, length, IfOk, IfSome};
ghost use Rattle.std.specs.Option.{option_map};
ghost use Rattle.mt_hex.specs.Hex.{hex_of};
ghost use Rattle.mt_text.specs.Cursors.{token_view};
ghost use Rattle.mt_text.specs.Tokens.{begins_word, number_of};
ghost use Rattle.mt_locate.specs.LocateLines.{end_of, ends_at, is_end, is_keyword, keyword, number_at, spelled, token_at, value_by, word_at};

use crate::refusal::{LocateKind, LocateRefusal};
use mt_hex::hex_of;
use mt_text::{Cursor, Token, number_of};

/// A number, and the place where it stands.
#[derive(Clone, Copy)]
pub struct Placed {
    pub value: u64,
    pub place: u32,
}

pub fn refused<T>(kind: LocateKind, place: u32) -> Result<T, LocateRefusal>
    ensures { result ≡ Err (record { kind = kind; place = place }) }
{
    Err(LocateRefusal { kind, place })
}

/// The token with an index, counted from 0.
fn token_at(text: &[u8], index: u32) -> Option<Token<'_>>
    requires { length text.now ≤ 1024 }
    ensures { option_map token_view result ≡ token_at text.now index }
{
    let mut cursor = Cursor {
        place: 1,
        rest: text,
    };
    for _ in 0..index {
        if cursor.next().is_err() {
            return None;
        }
    }
    match cursor.next() {
        Ok(token) => Some(token),
        Err(_) => None,
    }
}

/// The place behind the last byte.
fn end_of(text: &[u8]) -> u32
    requires { length text.now ≤ 1024 }
    ensures { result ≡ end_of text.now }
{
    text.len() as u32 + 1
}

/// The line begins with a fixed word.
#[tactic(auto, unfolding(crate::specs::LocateLines::keyword))]
pub fn keyword(text: &[u8], word: &[u8]) -> Result<(), LocateRefusal>
    requires { length text.now ≤ 1024 }
    ensures { result ≡ keyword word.now text.now }
{
    match token_at(text, 0) {
        None => refused(LocateKind::Spelling, end_of(text)),
        Some(token) if token.bytes != word => refused(LocateKind::Spelling, token.place),
        Some(_) => Ok(()),
    }
}

/// The line has only so many tokens.
#[tactic(auto, unfolding(crate::specs::LocateLines::ends_at))]
pub fn ends_at(text: &[u8], index: u32) -> Result<(), LocateRefusal>
    requires { length text.now ≤ 1024 }
    ensures { result ≡ ends_at text.now index }
{
    match token_at(text, index) {
        None => Ok(()),
        Some(token) => refused(LocateKind::Spelling, token.place),
    }
}

fn begins_word(token: &Token<'_>) -> bool
    ensures { result ≡ begins_word token.now.bytes.now }
{
    match token.bytes {
        [] => false,
        [byte, ..] => !matches!(*byte, b' ' | b'[' | b']' | b';'),
    }
}

fn spelled(place: u32, value: Option<u64>) -> Result<Placed, LocateRefusal>
    ensures placed { result ≡ spelled place value }
    ensures same { IfOk result (λ n. Some n.value ≡ value) }
{
    match value {
        None => refused(LocateKind::Number, place),
        Some(value) => Ok(Placed { value, place }),
    }
}

/// The number that a token spells in decimal digits.
fn number_in(token: &Token<'_>) -> Option<u64>
    ensures number { result ≡ number_of token.now.bytes.now }
    ensures small { IfSome result (λ n. n < 2 ^ 32) }
{
    match number_of(token.bytes) {
        None => None,
        Some(n) => Some(u64::from(n)),
    }
}

/// The number with an index.
#[tactic(auto, unfolding(crate::specs::LocateLines::number_at))]
pub fn number_at(text: &[u8], index: u32) -> Result<Placed, LocateRefusal>
    requires { length text.now ≤ 1024 }
    ensures number { result ≡ number_at text.now index }
    ensures small { IfOk result (λ n. n.value < 2 ^ 32) }
{
    match token_at(text, index) {
        None => refused(LocateKind::Spelling, end_of(text)),
        Some(token) if !begins_word(&token) => refused(LocateKind::Spelling, token.place),
        Some(token) => spelled(token.place, number_in(&token)),
    }
}

/// The word of a memory with an index, in hexadecimal digits.
#[tactic(auto, unfolding(crate::specs::LocateLines::word_at))]
pub fn word_at(text: &[u8], index: u32) -> Result<Placed, LocateRefusal>
    requires { length text.now ≤ 1024 }
    ensures { result ≡ word_at text.now index }
{
    match token_at(text, index) {
        None => refused(LocateKind::Spelling, end_of(text)),
        Some(token) if !begins_word(&token) => refused(LocateKind::Spelling, token.place),
        Some(token) => spelled(token.place, hex_of(token.bytes)),
    }
}
