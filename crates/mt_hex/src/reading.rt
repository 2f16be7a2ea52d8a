//! Words, as hexadecimal digits spell them.

ghost use Rattle.std.specs.Prelude.{◌≡◌, ◌<◌, ◌≤◌, if◌then◌else◌, Some, None, length, IfSome};
ghost use Rattle.std.specs.List.{list_all};
ghost use Rattle.mt_hex.specs.Hex.{is_hex, hex_digit, hex, hex_of, digits_of, word_of};

use mt_word::{Width, bits};

/// The value of a hexadecimal digit of either case, or none of another byte.
fn digit_of(byte: u8) -> Option<u8>
    ensures value { result ≡ (if is_hex byte then Some (hex_digit byte) else None) }
    ensures small { IfSome result (λ digit. digit < 16) }
{
    match byte {
        b'0'..=b'9' => Some(byte - b'0'),
        b'a'..=b'f' => Some(byte - b'a' + 10),
        b'A'..=b'F' => Some(byte - b'A' + 10),
        _ => None,
    }
}

/// The value of at most sixteen hexadecimal digits, or none where another byte is among them.
fn hex(bytes: &[u8]) -> Option<u64>
    requires few { length bytes.now ≤ 16 }
    ensures { result ≡ (if list_all is_hex bytes.now then Some (hex 0 bytes.now) else None) }
{
    let mut n = 0u64;
    for byte in bytes {
        let Some(digit) = digit_of(*byte) else {
            return None;
        };
        n = 16 * n + u64::from(digit);
    }
    Some(n)
}

/// The number that 1 to 16 hexadecimal digits of either case spell.
#[tactic(auto, unfolding(crate::specs::Hex::hex_of))]
pub fn hex_of(bytes: &[u8]) -> Option<u64>
    ensures { result ≡ hex_of bytes.now }
{
    if bytes.is_empty() || bytes.len() > 16 {
        return None;
    }
    hex(bytes)
}

fn digits_of(width: Width) -> usize
    ensures value { result ≡ digits_of width }
    ensures few { result ≤ 16 }
{
    bits(width) as usize / 4
}

/// The word that exactly as many hexadecimal digits spell as the width has fours of bits.
#[tactic(auto, unfolding(crate::specs::Hex::word_of))]
pub fn word_of(width: Width, bytes: &[u8]) -> Option<u64>
    ensures { result ≡ word_of width bytes.now }
{
    if bytes.len() == digits_of(width) {
        hex(bytes)
    } else {
        None
    }
}
