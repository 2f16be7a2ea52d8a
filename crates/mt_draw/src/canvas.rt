//! A text of markup under way.

ghost use Rattle.std.specs.Prelude.{◌≡◌, ◌++◌, [], decimal, IfOk};
ghost use Rattle.mt_draw.specs.Escaped.{entity, escaped};

use itoa::Buffer;
use std::alloc::{AllocError, Global};
use std::marker::Model;

/// The text of a picture or a page, as far as it is written.
#[derive(Drop)]
pub struct Canvas {
    text: Vec<u8>,
}

impl Model for Canvas {
    ghost use Rattle.std.specs.Prelude.{ℕ, List};

    ghost Value = { List ℕ };

    ghost view = { λ c. c.text.items };
}

// How a byte of a text is written.
#[tactic(auto, unfolding(crate::specs::Escaped::entity))]
fn entity(byte: &u8) -> &[u8]
    ensures { result.now ≡ entity byte.now }
{
    match *byte {
        b'&' => b"&amp;",
        b'<' => b"&lt;",
        b'>' => b"&gt;",
        b'"' => b"&quot;",
        b'\'' => b"&#39;",
        _ => std::slice::from_ref(byte),
    }
}

impl Canvas {
    /// Nothing is written.
    pub fn new(alloc: Global) -> Canvas
        ensures { result ≡ [] }
    {
        Canvas {
            text: Vec::new(alloc),
        }
    }

    /// Writes markup as it stands.
    pub fn markup(&mut self, markup: &str) -> Result<(), AllocError>
        ensures { IfOk result (λ _. self.new ≡ self.old ++ markup.now) }
    {
        self.text.extend_from_slice(markup.as_bytes())
    }

    /// Writes words as text.
    pub fn words(&mut self, words: &[u8]) -> Result<(), AllocError>
        ensures { IfOk result (λ _. self.new ≡ self.old ++ escaped words.now) }
    {
        for byte in words {
            self.text.extend_from_slice(entity(byte))?;
        }
        Ok(())
    }

    /// Writes a number in decimal digits.
    pub fn number(&mut self, n: u32) -> Result<(), AllocError>
        ensures { IfOk result (λ _. self.new ≡ self.old ++ decimal n) }
    {
        let mut buffer = Buffer::new();
        self.text.extend_from_slice(buffer.format(n).as_bytes())
    }

    /// Writes markup with a number after it, as ` x="7`.
    pub fn pair(&mut self, markup: &str, n: u32) -> Result<(), AllocError>
        ensures { IfOk result (λ _. self.new ≡ self.old ++ markup.now ++ decimal n) }
    {
        self.markup(markup)?;
        self.number(n)
    }

    /// The text.
    pub fn into_text(self) -> Vec<u8>
        ensures { result.items ≡ self }
    {
        self.text
    }
}
