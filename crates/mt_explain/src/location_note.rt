//! Notes on the lines of a fault location.

ghost use Rattle.std.specs.Prelude.{IfOk};
ghost use Rattle.mt_explain.specs.Notes.{IsPlain};

use crate::script_note::Refused;
use crate::tokens::{Tokens, tokens_to};
use mt_blocks::ParamSet;
use mt_conf::Config;
use mt_place::{Note, shown};
use mt_text::number_of;
use mt_word::bits;
use std::alloc::{AllocError, Global};

/// The bits of the largest slice that is located.
const MOST_BITS: u32 = 128;

/// A refused line of a location, the line before it, and the configuration.
#[derive(Clone, Copy)]
pub struct Located<'a, 'c> {
    pub line: Refused<'a>,
    pub before: &'a [u8],
    pub first: bool,
    pub config: &'c Config,
}

// The value of a token before the place, by its index.
fn number_before(tokens: &Tokens<'_>, index: usize) -> usize {
    match tokens.before.get(index) {
        Some(token) => number_of(token).unwrap_or(0) as usize,
        None => 0,
    }
}

fn set_before<'c>(config: &'c Config, tokens: &Tokens<'_>) -> Option<&'c ParamSet> {
    config.ram_tst.sets.as_slice().get(number_before(tokens, 1))
}

// How many slices the block before the place has.
fn slice_count(set: &ParamSet, block: usize) -> u32 {
    match set.blocks.as_slice().get(block) {
        Some(block) => {
            let words = block
                .span
                .last
                .saturating_sub(block.span.first)
                .saturating_add(1);
            words.saturating_add(set.atomic.saturating_sub(1)) / set.atomic.max(1)
        }
        None => 0,
    }
}

// How many there are of what the token is to name: of sets, of blocks, or of slices.
fn unknown(alloc: Global, config: &Config, tokens: &Tokens<'_>) -> Result<String, AllocError> {
    let set = set_before(config, tokens);
    let (what, count) = match (tokens.before.len(), set) {
        (2, Some(set)) => ("blocks of this set", set.blocks.as_slice().len()),
        (3, Some(set)) => (
            "slices of this block",
            slice_count(set, number_before(tokens, 2)) as usize,
        ),
        _ => ("sets", config.ram_tst.sets.as_slice().len()),
    };
    format!(in alloc; "the number of {what} is {count}, and they count from 0")
}

// How the line is written.
fn form(first: bool) -> &'static str {
    if first {
        "write slice S B J: a set, a block of it and a slice of that, each a number from 0 on"
    } else {
        "write miss I WORD: the index of a checked read, and what it answered in hexadecimal digits"
    }
}

fn spelling(
    alloc: Global,
    code: u8,
    located: Located<'_, '_>,
    tokens: &Tokens<'_>,
) -> Result<Note, AllocError>
    ensures { IfOk result IsPlain }
{
    let help = String::from_str(alloc, form(located.first))?;
    let Some(token) = tokens.here else {
        return Ok(Note::of(1, String::from_str(alloc, "the line ends here")?, help));
    };
    let word = shown(alloc, token)?;
    let found = if code == 2 {
        format!(in alloc; "found {word}")?
    } else {
        format!(in alloc; "{word} may not stand here")?
    };
    Ok(Note::of(token.len(), found, help))
}

// The index of the line before, if it is a miss.
fn index_before(alloc: Global, before: &[u8]) -> Result<Option<u32>, AllocError> {
    let tokens = tokens_to(alloc, before, u32::MAX)?;
    match tokens.before.as_slice() {
        [word, index, ..] if *word == b"miss".as_slice() => Ok(number_of(index)),
        _ => Ok(None),
    }
}

// An index that is refused: it does not rise, or is that of no checked read.
fn wrong_index(alloc: Global, token: &[u8], before: &[u8]) -> Result<Note, AllocError>
    ensures { IfOk result IsPlain }
{
    let word = shown(alloc, token)?;
    if let Some(last) = index_before(alloc, before)?
        && number_of(token).unwrap_or(0) <= last
    {
        let found = format!(in alloc; "{word} is not above {last}, the index of the line before")?;
        let help = String::from_str(alloc, "write the reads in the order of their indexes")?;
        return Ok(Note::of(token.len(), found, help));
    }
    let found = format!(in alloc; "access {word} of the sequence is no checked read")?;
    let help = String::from_str(
        alloc,
        "count the accesses of the algorithm on this slice from 0 on, its writes too",
    )?;
    Ok(Note::of(token.len(), found, help))
}

// A word that is refused: it is the one that was to be answered.
fn right_word(alloc: Global, token: &[u8]) -> Result<Note, AllocError>
    ensures { IfOk result IsPlain }
{
    let word = shown(alloc, token)?;
    let found = format!(in alloc; "{word} is what this read is to answer")?;
    let help = String::from_str(alloc, "write those reads alone that answered another word")?;
    Ok(Note::of(token.len(), found, help))
}

// A slice of too many bits.
fn wide_slice(alloc: Global, token: &[u8], config: &Config) -> Result<Note, AllocError>
    ensures { IfOk result IsPlain }
{
    let width = bits(config.shape.width);
    let words = MOST_BITS / width.max(1);
    let found = format!(in alloc; "the slice has more than {words} words of {width} bits")?;
    let help = format!(in alloc; "write atomic = {words} or less into this set")?;
    Ok(Note::of(token.len(), found, help))
}

fn wide_word(alloc: Global, token: &[u8], config: &Config) -> Result<Note, AllocError>
    ensures { IfOk result IsPlain }
{
    let width = bits(config.shape.width);
    let word = shown(alloc, token)?;
    let found = format!(in alloc; "{word} has more than {width} bits")?;
    let help = String::from_str(alloc, form(false))?;
    Ok(Note::of(token.len(), found, help))
}

/// A note on a line of a location that is refused by one of the rules 1 to 9 or 12 to 15.
pub fn location_note(alloc: Global, code: u8, located: Located<'_, '_>) -> Result<Note, AllocError>
    ensures { IfOk result IsPlain }
{
    let tokens = tokens_to(alloc, located.line.text, located.line.place)?;
    let token = tokens.here.unwrap_or(&[]);
    let config = located.config;
    match code {
        4 => wide_word(alloc, token, config),
        12 => {
            let found = unknown(alloc, config, &tokens)?;
            let help = String::from_str(alloc, form(true))?;
            Ok(Note::of(token.len(), found, help))
        }
        13 => wide_slice(alloc, token, config),
        14 => {
            let found = String::from_str(alloc, "this set has the algorithm transparent-galpat")?;
            let help = String::from_str(alloc, "name a set with another algorithm")?;
            Ok(Note::of(token.len(), found, help))
        }
        15 if tokens.before.len() == 2 => right_word(alloc, token),
        15 => wrong_index(alloc, token, located.before),
        _ => spelling(alloc, code, located, &tokens),
    }
}
