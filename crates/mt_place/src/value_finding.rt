//! What breaks the rules on the values of the top table, of sets and of their blocks.

ghost use Rattle.std.specs.Prelude.{◌≡◌, [], ◌∷◌, codes, IfOk, IfSome, true};
ghost use Rattle.mt_conf.specs.Rules.{is_one_of};
ghost use Rattle.mt_place.specs.Subjects.{IsAt, word_keys, name_keys, counted_keys};

use crate::find::Target;
use crate::finding::{Finding, number, out_of_range, text, top};
use crate::nearest::suggestion;
use crate::path::{Path, Placed, items_at};
use std::alloc::{AllocError, Global};
use toml::Table;

static ALGORITHMS: [&str; 5] = [
    "checkerboard",
    "march",
    "walk-path",
    "galpat",
    "transparent-galpat",
];

static POLICIES: [&str; 2] = ["non-destructive", "destructive"];

fn at_top(
    alloc: Global,
    key: &'static str,
    found: String,
    help: &str,
) -> Result<Finding<'static>, AllocError>
    ensures { IfOk result (λ f. f.target ≡ Target.Value key.entry) }
{
    Ok(Finding {
        path: Path::Top,
        place: Path::Top,
        target: Target::Value(key),
        found,
        help: String::from_str(alloc, help)?,
    })
}

/// The version that there is not.
pub fn version(alloc: Global, table: &Table) -> Result<Finding<'static>, AllocError>
    ensures { IfOk result (λ f. IsAt (codes "version" ∷ []) f.target) }
{
    let version = number(table, "version");
    let found = format!(in alloc; "version is {version}")?;
    at_top(
        alloc,
        "version",
        found,
        "write 1; or 2, for words of 64 bits and the key retries",
    )
}

/// The width that there is not.
pub fn width(alloc: Global, table: &Table) -> Result<Finding<'static>, AllocError>
    ensures { IfOk result (λ f. IsAt (codes "width" ∷ []) f.target) }
{
    let width = number(table, "width");
    let found = format!(in alloc; "width is {width}")?;
    let help = if width == 64 {
        "write version = 2, which has words of 64 bits; or 8, 16 or 32"
    } else {
        "write 8, 16 or 32; or 64 with version = 2"
    };
    at_top(alloc, "width", found, help)
}

/// The number of words that is out of range.
pub fn size<'t>(alloc: Global, placed: Placed<'t>) -> Result<Option<Finding<'t>>, AllocError>
    ensures { IfOk result (λ found. IfSome found (λ f. IsAt (codes "ram" ∷ codes "flash" ∷ []) f.target)) }
{
    match out_of_range(alloc, placed, "ram", (1, 65_536))? {
        Some(finding) => Ok(Some(finding)),
        None => out_of_range(alloc, placed, "flash", (0, 65_536)),
    }
}

// The key of a table at which a word stands.
fn word_key(path: Path) -> Option<&'static str>
    ensures { IfSome result (λ key. is_one_of word_keys key.now ≡ true) }
{
    match path {
        Path::Top => Some("initial"),
        Path::Set(_) => Some("background"),
        Path::Block { .. } => Some("fill"),
        _ => None,
    }
}

fn is_word(digits: usize, word: &str) -> bool {
    word.len() == digits && word.bytes().all(|byte| byte.is_ascii_hexdigit())
}

// What is wrong with a text that is no word.
fn misspelt_word(
    alloc: Global,
    digits: usize,
    key: &str,
    word: &str,
) -> Result<String, AllocError> {
    let count = word.len();
    if count == digits {
        return format!(in alloc; "{key} has other signs than hexadecimal digits");
    }
    format!(in alloc; "the length of {key} is {count}")
}

fn wrong_word<'t>(
    alloc: Global,
    placed: Placed<'t>,
    digits: usize,
    key: &'static str,
) -> Result<Option<Finding<'t>>, AllocError>
    ensures { is_one_of word_keys key.now ≡ true → IfOk result (λ found. IfSome found (λ f. IsAt word_keys f.target)) }
{
    if !placed.table.contains_key(key) {
        return Ok(None);
    }
    let word = text(placed.table, key);
    if is_word(digits, word) {
        return Ok(None);
    }
    Ok(Some(Finding {
        path: placed.path,
        place: placed.path,
        target: Target::Value(key),
        found: misspelt_word(alloc, digits, key, word)?,
        help: format!(in alloc; "write {digits} hexadecimal digits")?,
    }))
}

/// The text that is no word of the width.
pub fn word<'t>(alloc: Global, tables: &[Placed<'t>]) -> Result<Option<Finding<'t>>, AllocError>
    ensures { IfOk result (λ found. IfSome found (λ f. IsAt word_keys f.target)) }
{
    let digits = match top(tables) {
        Some(table) => number(table, "width") / 4,
        None => 2,
    };
    let digits = if digits == 4 || digits == 8 || digits == 16 {
        digits as usize
    } else {
        2
    };
    for placed in tables {
        if let Some(key) = word_key(placed.path)
            && let Some(finding) = wrong_word(alloc, *placed, digits, key)?
        {
            return Ok(Some(finding));
        }
    }
    Ok(None)
}

// The table with an index in the array at a key.
fn member(path: Path, key: &str, index: usize) -> Path {
    match (path, key) {
        (Path::Top, _) => Path::Set(index),
        (Path::Set(set), _) => Path::Block { set, block: index },
        (_, "bgnd") => Path::Bgnd(index),
        _ => Path::Fgnd(index),
    }
}

fn wrong_count<'t>(
    alloc: Global,
    placed: Placed<'t>,
    key: &'static str,
    range: (usize, usize),
) -> Result<Option<Finding<'t>>, AllocError>
    ensures { is_one_of counted_keys key.now ≡ true → IfOk result (λ found. IfSome found (λ f. IsAt counted_keys f.target)) }
{
    let count = items_at(placed.table, key).len();
    let (low, high) = range;
    if low <= count && count <= high {
        return Ok(None);
    }
    // The first table too many has a header of its own.
    let (place, target) = if count > high {
        (member(placed.path, key, high), Target::Header)
    } else {
        (placed.path, Target::Value(key))
    };
    Ok(Some(Finding {
        path: placed.path,
        place,
        target,
        found: format!(in alloc; "{key} has {count} tables")?,
        help: format!(in alloc; "write {low} to {high}")?,
    }))
}

fn count_in<'t>(alloc: Global, placed: Placed<'t>) -> Result<Option<Finding<'t>>, AllocError>
    ensures { IfOk result (λ found. IfSome found (λ f. IsAt counted_keys f.target)) }
{
    match placed.path {
        Path::Top => wrong_count(alloc, placed, "set", (1, 16)),
        Path::Set(_) => wrong_count(alloc, placed, "block", (1, 64)),
        Path::Fls => match wrong_count(alloc, placed, "bgnd", (0, 64))? {
            Some(finding) => Ok(Some(finding)),
            None => wrong_count(alloc, placed, "fgnd", (0, 64)),
        },
        _ => Ok(None),
    }
}

/// The array with too few or too many tables.
pub fn count<'t>(alloc: Global, tables: &[Placed<'t>]) -> Result<Option<Finding<'t>>, AllocError>
    ensures { IfOk result (λ found. IfSome found (λ f. IsAt counted_keys f.target)) }
{
    for placed in tables {
        if let Some(finding) = count_in(alloc, *placed)? {
            return Ok(Some(finding));
        }
    }
    Ok(None)
}

fn wrong_name<'t>(
    alloc: Global,
    placed: Placed<'t>,
    key: &'static str,
    names: &[&str],
) -> Result<Option<Finding<'t>>, AllocError>
    ensures { IfOk result (λ found. IfSome found (λ f. f.target ≡ Target.Value key.entry)) }
{
    let name = text(placed.table, key);
    if names.iter().any(|known| *known == name) {
        return Ok(None);
    }
    Ok(Some(Finding {
        path: placed.path,
        place: placed.path,
        target: Target::Value(key),
        found: format!(in alloc; "{key} has no name {name}")?,
        help: suggestion(alloc, name.as_bytes(), names)?,
    }))
}

// A march beside another algorithm.
fn idle_march<'t>(alloc: Global, placed: Placed<'t>) -> Result<Option<Finding<'t>>, AllocError>
    ensures { IfOk result (λ found. IfSome found (λ f. IsAt name_keys f.target)) }
{
    let algorithm = text(placed.table, "algorithm");
    if algorithm == "march" || !placed.table.contains_key("march") {
        return Ok(None);
    }
    Ok(Some(Finding {
        path: placed.path,
        place: placed.path,
        target: Target::Key("march"),
        found: format!(in alloc; "march stands beside the algorithm {algorithm}")?,
        help: String::from_str(alloc, "leave the march out, or write algorithm = \"march\"")?,
    }))
}

fn name_in<'t>(alloc: Global, placed: Placed<'t>) -> Result<Option<Finding<'t>>, AllocError>
    ensures { IfOk result (λ found. IfSome found (λ f. IsAt name_keys f.target)) }
{
    match placed.path {
        Path::Set(_) => match wrong_name(alloc, placed, "algorithm", &ALGORITHMS)? {
            Some(finding) => Ok(Some(finding)),
            None => idle_march(alloc, placed),
        },
        Path::Block { .. } => wrong_name(alloc, placed, "policy", &POLICIES),
        _ => Ok(None),
    }
}

/// The algorithm or the policy that there is not, or the march that no algorithm takes.
pub fn name<'t>(alloc: Global, tables: &[Placed<'t>]) -> Result<Option<Finding<'t>>, AllocError>
    ensures { IfOk result (λ found. IfSome found (λ f. IsAt name_keys f.target)) }
{
    for placed in tables {
        if let Some(finding) = name_in(alloc, *placed)? {
            return Ok(Some(finding));
        }
    }
    Ok(None)
}
