//! What is shown beside a rule's sentence.

ghost use Rattle.std.specs.Prelude.{◌≡◌, None, string_bytes, []};

use crate::mark::Mark;
use std::alloc::{AllocError, Global};

/// What was found, what would be taken, and how many bytes are marked. A refused configuration has a mark of its own if
/// it is found again in the text; a refused march has the number of its rule.
#[derive(Debug, Drop)]
pub struct Note {
    pub mark: Option<Mark>,
    pub length: usize,
    pub march: Option<u8>,
    pub found: String,
    pub help: String,
}

impl Note {
    /// A note that says nothing.
    pub fn new(alloc: Global) -> Note
        ensures mark { result.mark ≡ None }
        ensures length { result.length ≡ 1 }
        ensures march { result.march ≡ None }
        ensures found { string_bytes result.found ≡ [] }
        ensures help { string_bytes result.help ≡ [] }
    {
        Note {
            mark: None,
            length: 1,
            march: None,
            found: String::new(alloc),
            help: String::new(alloc),
        }
    }

    /// A note on so many bytes.
    pub fn of(length: usize, found: String, help: String) -> Note
        ensures { result ≡ record { mark = None; length = length; march = None; found = found; help = help } }
    {
        Note {
            mark: None,
            length,
            march: None,
            found,
            help,
        }
    }
}

/// A text, as it is shown.
pub fn shown(alloc: Global, bytes: &[u8]) -> Result<String, AllocError> {
    let text = String::from_utf8_lossy(alloc, bytes)?;
    format!(in alloc; "`{text}`")
}

/// Names, as they are shown, with commas between them.
pub fn listed(alloc: Global, names: &[&str]) -> Result<String, AllocError> {
    let mut text = String::new(alloc);
    for name in names {
        if !text.is_empty() {
            text.push_str(", ")?;
        }
        text.push_str(shown(alloc, name.as_bytes())?.as_str())?;
    }
    Ok(text)
}
