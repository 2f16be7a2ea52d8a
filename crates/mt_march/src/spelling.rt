//! Whether a text is of the grammar.

ghost use Rattle.std.specs.Prelude.{◌≡◌, ◌<◌, length};
ghost use Rattle.mt_march.specs.Machine.{next, fault};
ghost use Rattle.mt_march.specs.declared.spelling.Expects.TheVariants.{Brace};

/// What is expected next.
#[derive(Clone, Copy, Debug, PartialEq, Eq)]
pub enum Expects {
    Brace,
    Direction,
    Parenthesis,
    Letter,
    Digit,
    Comma,
    Semicolon,
    Nothing,
}

fn next(expects: Expects, byte: u8) -> Option<Expects>
    ensures { result ≡ next expects byte }
{
    match expects {
        Expects::Brace => match byte {
            b' ' => Some(Expects::Brace),
            b'{' => Some(Expects::Direction),
            _ => None,
        },
        Expects::Direction => match byte {
            b' ' => Some(Expects::Direction),
            b'u' | b'd' | b'*' => Some(Expects::Parenthesis),
            _ => None,
        },
        Expects::Parenthesis => match byte {
            b' ' => Some(Expects::Parenthesis),
            b'(' => Some(Expects::Letter),
            _ => None,
        },
        Expects::Letter => match byte {
            b' ' => Some(Expects::Letter),
            b'r' | b'w' => Some(Expects::Digit),
            _ => None,
        },
        Expects::Digit => match byte {
            b'0' | b'1' => Some(Expects::Comma),
            _ => None,
        },
        Expects::Comma => match byte {
            b' ' => Some(Expects::Comma),
            b',' => Some(Expects::Letter),
            b')' => Some(Expects::Semicolon),
            _ => None,
        },
        Expects::Semicolon => match byte {
            b' ' => Some(Expects::Semicolon),
            b';' => Some(Expects::Direction),
            b'}' => Some(Expects::Nothing),
            _ => None,
        },
        Expects::Nothing => match byte {
            b' ' => Some(Expects::Nothing),
            _ => None,
        },
    }
}

/// The place of the first fault of spelling.
pub fn spelling_fault(text: &[u8]) -> Option<usize>
    ensures { result ≡ fault Brace 1 text.now }
{
    let mut expects = Expects::Brace;
    for (i, byte) in text.iter().enumerate() {
        match next(expects, *byte) {
            Some(after) => expects = after,
            None => return Some(i + 1),
        }
    }
    match expects {
        Expects::Nothing => None,
        _ => Some(text.len() + 1),
    }
}
