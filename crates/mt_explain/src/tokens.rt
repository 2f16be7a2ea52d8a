//! The tokens of a refused line.

use mt_text::Cursor;
use std::alloc::{AllocError, Global};

/// The most bytes of a line that is read.
pub const MOST_BYTES: usize = 1024;

/// The tokens before a place, and the one that stands there, if one does.
#[derive(Drop)]
pub struct Tokens<'a> {
    pub before: Vec<&'a [u8]>,
    pub here: Option<&'a [u8]>,
}

/// The tokens of a line up to a place.
pub fn tokens_to<'a>(alloc: Global, text: &'a [u8], place: u32) -> Result<Tokens<'a>, AllocError> {
    let rest = &text[..text.len().min(MOST_BYTES)];
    let mut cursor = Cursor { place: 1, rest };
    let mut before = Vec::new(alloc);
    for _ in 0..MOST_BYTES {
        match cursor.next() {
            Err(_) => break,
            Ok(token) => {
                if token.place >= place {
                    return Ok(Tokens {
                        before,
                        here: Some(token.bytes),
                    });
                }
                before.push(token.bytes)?;
            }
        }
    }
    Ok(Tokens { before, here: None })
}
