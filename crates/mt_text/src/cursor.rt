//! What is left of a line.

ghost use Rattle.std.specs.Prelude.{◌≡◌, ◌<◌, ◌+◌, ◌^◌, length};

use crate::line::{LineKind, LineRefusal};
use crate::token::{Token, skip, token_len};

/// What is left of a line, and the place of its first byte.
#[derive(Clone, Copy)]
pub struct Cursor<'a> {
    pub place: u32,
    pub rest: &'a [u8],
    ghost fits: { place + length rest.now < 2 ^ 32 },
}

impl<'a> Cursor<'a> {
    ghost use Rattle.std.specs.Prelude.{if◌then◌else◌};
    ghost use Rattle.mt_text.specs.Cursors.{left, end_of, Takes, no_token, first_is, behind};

    /// Takes the next token; where there is none, the line ends too early.
    pub fn next(&mut self) -> Result<Token<'a>, LineRefusal>
        ensures took { Takes self.old self.new result }
        ensures end { end_of self.new ≡ end_of self.old }
    {
        let text = skip(self.rest);
        let place = self.place + (self.rest.len() - text.len()) as u32;
        let len = token_len(text);
        if len == 0 {
            return Err(LineRefusal {
                kind: LineKind::Spelling,
                place,
            });
        }
        let (bytes, rest) = text.split_at(len);
        *self = Cursor {
            place: place + len as u32,
            rest,
        };
        Ok(Token { place, bytes })
    }

    /// Whether no token is left.
    pub fn is_at_end(&self) -> bool
        ensures { result ≡ no_token (left self.now) }
    {
        let mut ahead = *self;
        match ahead.next() {
            Ok(_) => false,
            Err(_) => true,
        }
    }

    /// Takes the next token where it is this one.
    pub fn takes(&mut self, word: &[u8]) -> bool
        ensures word { result ≡ first_is word.now (left self.old) }
        ensures rest { left self.new ≡ (if result then behind (left self.old) else left self.old) }
        ensures end { end_of self.new ≡ end_of self.old }
    {
        let mut ahead = *self;
        if let Ok(token) = ahead.next()
            && token.bytes == word
        {
            *self = ahead;
            return true;
        }
        false
    }
}
