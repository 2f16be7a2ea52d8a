//! What may stand at a place of a script line: the reader is asked.

use crate::tokens::MOST_BYTES;
use mt_place::suggestion;
use mt_port::Shape;
use mt_text::{LineKind, read_line};
use mt_word::bits;
use std::alloc::{AllocError, Global};

/// Each fixed word of the script.
static WORDS: [&str; 47] = [
    "ram",
    "fls",
    "tick",
    "app",
    "inject",
    "heal",
    "burn",
    "flip",
    "r",
    "w",
    "add",
    "copy",
    "f",
    "Init",
    "DeInit",
    "Stop",
    "Allow",
    "Suspend",
    "Resume",
    "GetExecutionStatus",
    "GetTestResult",
    "GetTestResultPerBlock",
    "GetAlgParams",
    "GetTestAlgorithm",
    "GetNumberOfTestedCells",
    "SelectAlgParams",
    "ChangeNumberOfTestedCells",
    "RunFullTest",
    "RunPartialTest",
    "GetVersionInfo",
    "StartFgnd",
    "Abort",
    "GetCurrentState",
    "GetTestResultBgnd",
    "GetTestResultFgnd",
    "GetErrorDetails",
    "sa",
    "tf-up",
    "tf-down",
    "cfin",
    "cfid",
    "cfst",
    "af-none",
    "af-also",
    "af-instead",
    "up",
    "down",
];

/// Words of which none is near another one: the wirings, and the signs of handlers.
static SIGNS: [&str; 5] = ["and", "or", "[", ";", "]"];

/// A place of a line: what stands before it, whether the line ends there, and the shape of the memory.
#[derive(Clone, Copy)]
pub struct Gap<'a> {
    pub front: &'a [u8],
    pub at_end: bool,
    pub shape: Shape,
}

impl<'a> Gap<'a> {
    /// By which rule the reader refuses a word here, if it does.
    fn refusal(self, alloc: Global, word: &str) -> Result<Option<LineKind>, AllocError> {
        let mut text = Vec::from_slice(alloc, self.front)?;
        // A word at the end stands apart from the one before it.
        if self.at_end {
            text.push(b' ')?;
        }
        let place = text.len();
        text.extend_from_slice(word.as_bytes())?;
        if text.len() > MOST_BYTES {
            return Ok(Some(LineKind::Spelling));
        }
        match read_line(&text, self.shape) {
            Err(refusal) if refusal.place as usize <= place.saturating_add(1) => Ok(Some(
                refusal.kind,
            )),
            _ => Ok(None),
        }
    }

    fn takes(self, alloc: Global, word: &str) -> Result<bool, AllocError> {
        Ok(self.refusal(alloc, word)?.is_none())
    }

    /// Whether a word is refused here for its spelling as a number or a word of the memory.
    fn misspells(self, alloc: Global, word: &str) -> Result<bool, AllocError> {
        Ok(matches!(self.refusal(alloc, word)?, Some(LineKind::Number)))
    }

    /// Whether an address that is the smaller number of words is refused here: then that is the number that limits it.
    fn limit(self, alloc: Global) -> Result<u32, AllocError> {
        let least = self.shape.ram.min(self.shape.flash);
        let text = format!(in alloc; "{least}")?;
        if matches!(self.refusal(alloc, text.as_str())?, Some(LineKind::Address)) {
            Ok(least)
        } else {
            Ok(self.shape.ram.max(self.shape.flash))
        }
    }

    // What a spot is here: its word may be one of the RAM or of the flash.
    fn spot(self, alloc: Global) -> Result<String, AllocError> {
        let least = self.shape.ram.min(self.shape.flash);
        let text = format!(in alloc; "{least}.0")?;
        let refused = self.refusal(alloc, text.as_str())?;
        let limit = if matches!(refused, Some(LineKind::Address)) {
            least
        } else {
            self.shape.ram.max(self.shape.flash)
        };
        let width = bits(self.shape.width);
        format!(in alloc; "WORD.BIT, with a word below {limit} and a bit below {width}")
    }

    /// What a value is here.
    fn value(self, alloc: Global) -> Result<String, AllocError> {
        if self.misspells(alloc, "0")? {
            return self.spot(alloc);
        }
        if !self.misspells(alloc, "f")? {
            let width = bits(self.shape.width);
            return format!(in alloc;
                "a word in 1 to 16 hexadecimal digits, of at most {width} bits"
            );
        }
        if self.misspells(alloc, "2")? {
            return String::from_str(alloc, "0 or 1");
        }
        if self.takes(alloc, "4294967295")? {
            return String::from_str(
                alloc,
                "a number in decimal digits without a leading zero, at most 4294967295",
            );
        }
        let limit = self.limit(alloc)?;
        format!(in alloc; "an address in decimal digits without a leading zero, below {limit}")
    }

    /// The fixed words that may stand here.
    fn names(self, alloc: Global) -> Result<Vec<&'static str>, AllocError> {
        let mut names = Vec::new(alloc);
        for word in WORDS.iter() {
            if self.takes(alloc, word)? {
                names.push(*word)?;
            }
        }
        for sign in SIGNS.iter() {
            if self.takes(alloc, sign)? {
                names.push(*sign)?;
            }
        }
        Ok(names)
    }

    // What may stand here of words and signs, and whether a request may.
    fn choice(self, alloc: Global, word: &[u8]) -> Result<String, AllocError> {
        let names = self.names(alloc)?;
        let request = self.takes(alloc, "@4294967295")?;
        match (names.as_slice(), request) {
            ([], false) => String::from_str(alloc, "nothing more may stand on this line"),
            ([], true) => String::from_str(alloc, "write a request, as `@5` or `!5`"),
            (names, false) => suggestion(alloc, word, names),
            (names, true) => {
                let text = suggestion(alloc, word, names)?;
                format!(in alloc; "{text}, or a request, as `@5` or `!5`")
            }
        }
    }

    /// What may stand here in place of a token.
    pub fn help(self, alloc: Global, word: &[u8]) -> Result<String, AllocError> {
        if !self.misspells(alloc, "x")? {
            return self.choice(alloc, word);
        }
        let value = self.value(alloc)?;
        format!(in alloc; "write {value}")
    }
}
