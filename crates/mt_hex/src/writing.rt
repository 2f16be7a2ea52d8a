//! Texts of a fixed capacity.

ghost use Rattle.std.specs.Prelude.{◌≡◌, ◌<◌, ◌≤◌, ◌+◌, ◌/◌, ◌++◌, ◌∷◌, [], decimal, length};
ghost use Rattle.mt_word.specs.Word.{width_bits};
ghost use Rattle.mt_hex.specs.Digits.{digit_byte, hex_text, word_text};

use arrayvec::ArrayVec;
use itoa::Buffer;
use mt_word::{Width, bits};

/// Appends some bytes.
pub fn push_bytes<const N: usize>(out: &mut ArrayVec<u8, N>, bytes: &[u8])
    requires { length out.old.items + length bytes.now ≤ N }
    ensures { out.new.items ≡ out.old.items ++ bytes.now }
{
    match out.try_extend_from_slice(bytes) {
        Ok(()) => {}
        // There is room.
        Err(_) => unreachable!(),
    }
}

// Appends a number of any length.
fn push_long_number<const N: usize>(out: &mut ArrayVec<u8, N>, n: u32)
    requires { length out.old.items + 10 ≤ N }
    ensures text { out.new.items ≡ out.old.items ++ decimal n }
    ensures short { length out.new.items ≤ length out.old.items + 10 }
{
    let mut buffer = Buffer::new();
    push_bytes(out, buffer.format(n).as_bytes());
}

/// Appends a number in decimal digits.
pub fn push_number<const N: usize>(out: &mut ArrayVec<u8, N>, n: u32)
    requires { length out.old.items + 10 ≤ N }
    ensures text { out.new.items ≡ out.old.items ++ decimal n }
    ensures short { length out.new.items ≤ length out.old.items + 10 }
{
    if n < 10 {
        out.push(b'0' + n as u8);
    } else {
        push_long_number(out, n);
    }
}

fn digit_byte(digit: u8) -> u8
    requires { digit < 16 }
    ensures { result ≡ digit_byte digit }
{
    if digit < 10 {
        b'0' + digit
    } else {
        b'a' + (digit - 10)
    }
}

/// Appends the last `digits` hexadecimal digits of a word.
fn push_digits<const N: usize>(out: &mut ArrayVec<u8, N>, digits: u32, word: u64)
    requires few { digits ≤ 16 }
    requires room { length out.old.items + digits ≤ N }
    ensures text { out.new.items ≡ out.old.items ++ hex_text digits word }
    ensures len { length out.new.items ≡ length out.old.items + digits }
{
    let mut left = digits;
    while left > 0 {
        left -= 1;
        let digit = (word >> (4 * left)) % 16;
        out.push(digit_byte(digit as u8));
    }
}

/// Appends a word of the width.
pub fn push_word<const N: usize>(out: &mut ArrayVec<u8, N>, width: Width, word: u64)
    requires { length out.old.items + 16 ≤ N }
    ensures text { out.new.items ≡ out.old.items ++ word_text width word }
    ensures short { length out.new.items ≤ length out.old.items + 16 }
{
    push_digits(out, bits(width) / 4, word);
}
