//! Words of a memory, packed into bytes.

ghost use Rattle.std.specs.Prelude.{◌≡◌, ◌<◌, ◌≤◌, ◌+◌, ◌*◌, ◌++◌, IfOk, length, take, drop, replicate, slice_index, slice_range, slice_set};
ghost use Rattle.mt_word.specs.Word.{Fits};
ghost use Rattle.mt_word.specs.Packed.{width_bytes, word_at, unpacked};

use crate::{NoMemory, Width};
use std::alloc::Global;
use std::marker::Model;

/// Words of one width, width / 8 bytes each, the least byte first. Contracts see it as the list of its words.
#[derive(Drop)]
pub struct Words {
    width: Width,
    bytes: Vec<u8>,
}

impl Model for Words {
    ghost use Rattle.mt_word.specs.Packed.{WordList, unpacked};

    ghost Value = { WordList };

    ghost view = { λ w. record { width = w.width; words = unpacked w.width w.bytes.items } };
}

// N bytes from a place on.
fn load<const N: usize>(bytes: &[u8], at: usize) -> [u8; N]
    requires { at + N ≤ length bytes.now }
    ensures { result ≡ slice_range bytes.now at (at + N) }
{
    let mut chunk = [0; N];
    chunk.copy_from_slice(&bytes[at..at + N]);
    chunk
}

// Puts N bytes at a place.
fn store<const N: usize>(bytes: &mut [u8], at: usize, chunk: [u8; N])
    requires { at + N ≤ length bytes.old }
    ensures { bytes.new ≡ take at bytes.old ++ chunk.entry ++ drop (at + N) bytes.old }
{
    bytes[at..at + N].copy_from_slice(&chunk);
}

// How many bytes a word has.
fn bytes_a_word(width: Width) -> usize
    ensures { result ≡ width_bytes width }
{
    match width {
        Width::W8 => 1,
        Width::W16 => 2,
        Width::W32 => 4,
        Width::W64 => 8,
    }
}

// The word with an index.
#[tactic(auto, unfolding(crate::specs::Packed::word_at))]
fn word_of(bytes: &[u8], width: Width, at: usize) -> u64
    requires { width_bytes width * at + width_bytes width ≤ length bytes.now }
    ensures { result ≡ word_at width bytes.now at }
{
    match width {
        Width::W8 => u64::from(u8::from_le_bytes(load(bytes, at))),
        Width::W16 => u64::from(u16::from_le_bytes(load(bytes, 2 * at))),
        Width::W32 => u64::from(u32::from_le_bytes(load(bytes, 4 * at))),
        Width::W64 => u64::from_le_bytes(load(bytes, 8 * at)),
    }
}

// Puts a word in place of the one with an index.
fn put_word(bytes: &mut [u8], width: Width, at: usize, word: u64)
    requires at { width_bytes width * at + width_bytes width ≤ length bytes.old }
    requires word { Fits width word }
    ensures { unpacked width bytes.new ≡ slice_set (unpacked width bytes.old) at word }
{
    match width {
        Width::W8 => store(bytes, at, (word as u8).to_le_bytes()),
        Width::W16 => store(bytes, 2 * at, (word as u16).to_le_bytes()),
        Width::W32 => store(bytes, 4 * at, (word as u32).to_le_bytes()),
        Width::W64 => store(bytes, 8 * at, word.to_le_bytes()),
    }
}

impl Words {
    /// A list of `count` words, each of which is `word`.
    pub fn filled(alloc: Global, width: Width, count: u32, word: u64) -> Result<Words, NoMemory>
        requires { Fits width word }
        ensures { IfOk result (λ w. w ≡ record { width = width; words = replicate count word }) }
    {
        let size = bytes_a_word(width) * count as usize;
        let Ok(bytes) = vec![in alloc; 0; size] else {
            return Err(NoMemory);
        };
        let mut words = Words { width, bytes };
        for at in 0..count {
            words.set(at, word);
        }
        Ok(words)
    }

    /// The width of each word.
    pub fn width(&self) -> Width
        ensures { result ≡ self.now.width }
    {
        self.width
    }

    /// How many words there are.
    pub fn len(&self) -> usize
        ensures { result ≡ length self.now.words }
    {
        self.bytes.len() / bytes_a_word(self.width)
    }

    /// The word with this index, counted from 0.
    pub fn get(&self, at: u32) -> u64
        requires { at < length self.now.words }
        ensures { result ≡ slice_index self.now.words at }
    {
        word_of(&self.bytes, self.width, at as usize)
    }

    /// Sets the word with this index; every other word stays.
    pub fn set(&mut self, at: u32, word: u64)
        requires at { at < length self.old.words }
        requires word { Fits self.old.width word }
        ensures words { self.new ≡ record self.old { words = slice_set self.old.words at word } }
        ensures size { length self.new.words ≡ length self.old.words }
    {
        put_word(&mut self.bytes, self.width, at as usize, word);
    }
}
