//! The nearest of some names.

ghost use Rattle.std.specs.Prelude.{◌≡◌, ◌↔◌, IsTrue, IfOk, map, option_map};
ghost use Rattle.std.specs.Str.{str_to_ascii_lowercase};
ghost use Rattle.mt_place.specs.Names.{distance, AreFew, IsNearest};

use crate::note::listed;
use std::alloc::{AllocError, Global};
use strsim::damerau_levenshtein;

/// Names that take more edits than this are not near.
const MOST_EDITS: usize = 2;

// Whether so many edits are few, for a name of this length.
fn are_few(count: usize, name: &str) -> bool
    ensures { IsTrue result ↔ AreFew count name.now }
{
    count <= MOST_EDITS && 2 * count < name.len()
}

// How many edits lead from a word in small letters to a name, whatever the case of its letters.
fn edits_to(alloc: Global, lower: &str, name: &str) -> Result<usize, AllocError>
    ensures { IfOk result (λ count. count ≡ distance lower.now (str_to_ascii_lowercase name.now)) }
{
    let other = name.to_ascii_lowercase(alloc)?;
    damerau_levenshtein(alloc, lower, other.as_str())
}

/// The name that takes the fewest edits, the first of these; none if each takes too many.
fn nearest<'a>(alloc: Global, word: &str, names: &[&'a str]) -> Result<Option<&'a str>, AllocError>
    ensures { IfOk result (λ best. IsNearest word.now (map (λ name. name.now) names.now) (option_map (λ name. name.now) best)) }
{
    let lower = word.to_ascii_lowercase(alloc)?;
    let mut best = None;
    let mut least = MOST_EDITS + 1;
    for name in names {
        let edits = edits_to(alloc, lower.as_str(), name)?;
        if edits < least && are_few(edits, name) {
            least = edits;
            best = Some(*name);
        }
    }
    Ok(best)
}

/// The nearest name, or all names that are taken.
pub fn suggestion(alloc: Global, word: &[u8], names: &[&str]) -> Result<String, AllocError> {
    let text = String::from_utf8_lossy(alloc, word)?;
    match (nearest(alloc, text.as_str(), names)?, names) {
        (Some(name), _) => format!(in alloc; "write `{name}`"),
        (None, [name]) => format!(in alloc; "write `{name}`"),
        _ => {
            let all = listed(alloc, names)?;
            format!(in alloc; "write one of {all}")
        }
    }
}
