//! Tokens with their places.

ghost use Rattle.std.specs.Prelude.{◌≡◌, ◌<◌, ◌≤◌, ◌+◌, if◌then◌else◌, Some, None, length, IfSome};
ghost use Rattle.std.specs.List.{list_all};
ghost use Rattle.mt_hex.specs.Hex.{is_digit};
ghost use Rattle.mt_text.specs.Tokens.{is_word, skip, word_len, token_len, has_leading_zero, decimal, number_of, both, point, spot_of};

/// A token, and the place of its first byte.
#[derive(Clone, Copy)]
pub struct Token<'a> {
    pub place: u32,
    pub bytes: &'a [u8],
}

pub fn is_word(byte: u8) -> bool
    ensures { result ≡ is_word byte }
{
    match byte {
        b' ' | b'[' | b']' | b';' => false,
        _ => true,
    }
}

pub fn skip(text: &[u8]) -> &[u8]
    ensures value { result.now ≡ skip text.now }
    ensures shorter { length result.now ≤ length text.now }
{
    let mut rest = text;
    while let [b' ', after @ ..] = rest {
        rest = after;
    }
    rest
}

fn word_len(text: &[u8]) -> usize
    ensures value { result ≡ word_len text.now }
    ensures fits { result ≤ length text.now }
{
    for (i, byte) in text.iter().enumerate() {
        if !is_word(*byte) {
            return i;
        }
    }
    text.len()
}

pub fn token_len(text: &[u8]) -> usize
    ensures value { result ≡ token_len text.now }
    ensures fits { result ≤ length text.now }
{
    match text {
        [] => 0,
        [byte, rest @ ..] => {
            if is_word(*byte) {
                word_len(rest) + 1
            } else {
                1
            }
        }
    }
}

fn has_leading_zero(bytes: &[u8]) -> bool
    ensures { result ≡ has_leading_zero bytes.now }
{
    match bytes {
        [] => true,
        [_] => false,
        [byte, ..] => *byte == b'0',
    }
}

/// The value of at most ten decimal digits, or none where another byte is among them.
fn decimal(bytes: &[u8]) -> Option<u64>
    requires few { length bytes.now ≤ 10 }
    ensures { result ≡ (if list_all is_digit bytes.now then Some (decimal 0 bytes.now) else None) }
{
    let mut n = 0u64;
    for byte in bytes {
        if !(b'0' <= *byte && *byte <= b'9') {
            return None;
        }
        n = 10 * n + u64::from(*byte - b'0');
    }
    Some(n)
}

/// The number that the bytes spell.
#[tactic(auto, unfolding(crate::specs::Tokens::number_of))]
pub fn number_of(bytes: &[u8]) -> Option<u32>
    ensures { result ≡ number_of bytes.now }
{
    if has_leading_zero(bytes) || bytes.len() > 10 {
        return None;
    }
    match decimal(bytes) {
        Some(n) if n < 4_294_967_296 => Some(n as u32),
        _ => None,
    }
}

/// The index of the first point.
fn point(bytes: &[u8]) -> Option<usize>
    ensures value { result ≡ point bytes.now }
    ensures within { IfSome result (λ i. i < length bytes.now) }
{
    bytes.iter().position(|byte| *byte == b'.')
}

/// The two numbers that are spelled with a point between them.
#[tactic(auto, unfolding(crate::specs::Tokens::spot_of))]
pub fn spot_of(bytes: &[u8]) -> Option<(u32, u32)>
    ensures { result ≡ spot_of bytes.now }
{
    match point(bytes) {
        None => None,
        Some(point) => pair(number_of(&bytes[..point]), number_of(&bytes[point + 1..])),
    }
}

fn pair(word: Option<u32>, bit: Option<u32>) -> Option<(u32, u32)>
    ensures { result ≡ both word bit }
{
    match (word, bit) {
        (Some(word), Some(bit)) => Some((word, bit)),
        _ => None,
    }
}
