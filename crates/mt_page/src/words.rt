//! The words of the program.

ghost use Rattle.std.specs.Prelude.{IfOk};
ghost use Rattle.mt_page.specs.Answers.{Spells};

use itoa::Buffer;
use std::alloc::{AllocError, Global};

/// The words of a form and its numbers.
pub(crate) fn words_of(
    alloc: Global,
    form: &[u8],
    numbers: &[u32],
) -> Result<Vec<String>, AllocError>
    ensures { IfOk result (λ words. Spells words.items form.now numbers.now) }
{
    let mut words = Vec::new(alloc);
    words.push(String::from_utf8_lossy(alloc, form)?)?;
    for number in numbers {
        let mut buffer = Buffer::new();
        words.push(String::from_str(alloc, buffer.format(*number))?)?;
    }
    Ok(words)
}
