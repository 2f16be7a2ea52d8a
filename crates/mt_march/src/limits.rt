//! The rules on a text of the grammar.

ghost use Rattle.std.specs.Prelude.{◌≡◌, ◌<◌, length};
ghost use Rattle.mt_march.specs.Scan.{too_long, read_before_write, wrong_expectation, has_read, close_place, first};

/// The byte after this one, and 0 at the end.
pub fn first(text: &[u8]) -> u8
    ensures { result ≡ first text.now }
{
    match text {
        [] => 0,
        [byte, ..] => *byte,
    }
}

/// The place of the first read, where no write stands before it.
pub fn read_before_write(text: &[u8]) -> Option<usize>
    ensures { result ≡ read_before_write 1 text.now }
{
    for (i, byte) in text.iter().enumerate() {
        match *byte {
            b'r' => return Some(i + 1),
            b'w' => return None,
            _ => {}
        }
    }
    None
}

/// The place of the first read whose digit isn't that of the last write.
pub fn wrong_expectation(text: &[u8]) -> Option<usize>
    ensures { result ≡ wrong_expectation 1 0 text.now }
{
    let mut written = 0;
    for (i, byte) in text.iter().enumerate() {
        let (_, later) = text.split_at(i + 1);
        let digit = first(later);
        if *byte == b'w' {
            written = digit;
        } else if *byte == b'r' && digit != written {
            return Some(i + 1);
        }
    }
    None
}

pub fn has_read(text: &[u8], digit: u8) -> bool
    ensures { result ≡ has_read digit text.now }
{
    for (i, byte) in text.iter().enumerate() {
        let (_, later) = text.split_at(i + 1);
        if *byte == b'r' && first(later) == digit {
            return true;
        }
    }
    false
}

/// The place of the closing brace.
pub fn close_place(text: &[u8]) -> usize
    ensures { result ≡ close_place 1 text.now }
{
    for (i, byte) in text.iter().enumerate() {
        if *byte == b'}' {
            return i + 1;
        }
    }
    text.len() + 1
}

/// The place of the first element or operation too many.
pub fn too_long(text: &[u8]) -> Option<usize>
    ensures { result ≡ too_long 1 0 0 text.now }
{
    let mut elements = 0u32;
    let mut ops = 0u32;
    for (i, byte) in text.iter().enumerate() {
        match *byte {
            b'u' | b'd' | b'*' => {
                if elements == 16 {
                    return Some(i + 1);
                }
                elements += 1;
                ops = 0;
            }
            b'r' | b'w' => {
                if ops == 8 {
                    return Some(i + 1);
                }
                ops += 1;
            }
            _ => {}
        }
    }
    None
}
