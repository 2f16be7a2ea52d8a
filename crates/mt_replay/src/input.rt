//! Reads a job, line by line.

ghost use Rattle.std.specs.Prelude.{◌≡◌, ◌==◌, ◌<◌, ◌≤◌, ◌+◌, ℕ, true, false, not, [], ◌∷◌, ◌++◌, length, take, drop, OnErr, IfOk};
ghost use Rattle.std.specs.List.{prefix_len};
ghost use Rattle.std.specs.Io.KnownBytes.{prepend_known};
ghost use Rattle.mt_port.specs.Causes.{HasCause};
ghost use Rattle.mt_port.specs.Streams.{WhereTold};
ghost use Rattle.mt_replay.specs.Inner.Reading.{TakesLine, TakesPiece, BreaksOff};

use arrayvec::ArrayVec;
use mt_port::{Failed, Source};
use std::marker::Model;

/// What came of reading a line: a whole one, a last one without a line feed, the end of the input, or more bytes
/// than a line may have.
#[derive(Clone, Copy, Debug, PartialEq, Eq)]
pub enum Line {
    Whole,
    Last,
    End,
    TooLong,
}

/// What came of moving held bytes to the text of a line: its line feed was among them, all are moved, or there are
/// too many.
#[derive(Clone, Copy, Debug, PartialEq, Eq)]
pub(crate) enum Piece {
    Ended,
    More,
    TooLong,
}

/// The text of a line, of at most 1,024 bytes.
pub type LineText = ArrayVec<u8, 1024>;

const ROOM: usize = 4096;

/// Bytes that were read from a source and not looked at yet.
#[derive(Drop)]
pub struct Input {
    bytes: [u8; ROOM],
    next: usize,
    count: usize,
}

impl Model for Input {
    ghost use Rattle.std.specs.Prelude.{ℕ, List, drop, take, length, ◌≤◌};

    ghost Value = { List ℕ };

    ghost view = { λ i. drop i.next (take i.count i.bytes) };

    ghost invariant = { λ i. (i.next ≤ i.count) × (i.count ≤ 4096) };
}

impl Input {
    /// Nothing was read yet.
    pub fn new() -> Input
        ensures { result ≡ [] }
    {
        Input {
            bytes: [0; ROOM],
            next: 0,
            count: 0,
        }
    }

    /// Reads bytes from the source where none is held. Answers whether one is held then.
    pub fn fill<S: Source>(&mut self, source: &mut S) -> Result<bool, Failed>
        ensures ok { IfOk result (λ some. WhereTold (prepend_known self.old (S.left source.old))
            (prepend_known self.new (S.left source.new))
            (λ before after. (before ≡ after) × (some ≡ false → after ≡ []))) }
        ensures some { IfOk result (λ some. some ≡ true → 0 < length self.new) }
        ensures err { OnErr result (WhereTold (prepend_known self.old (S.left source.old))
            (prepend_known self.new (S.left source.new)) (λ before after. before ≡ after)) }
        ensures none { OnErr result (self.new ≡ []) }
        ensures cause { HasCause (S.faults source.old) (S.faults source.new) result }
    {
        if self.next < self.count {
            return Ok(true);
        }
        self.next = 0;
        self.count = 0;
        self.count = source.read(&mut self.bytes)?;
        Ok(self.count > 0)
    }

    /// The bytes that are held.
    pub(crate) fn held(&self) -> &[u8]
        ensures { result.now ≡ self.now }
    {
        &self.bytes[self.next..self.count]
    }

    /// Takes bytes at the front of those that are held.
    pub(crate) fn skip(&mut self, count: usize)
        requires { count ≤ length self.old }
        ensures { self.new ≡ drop count self.old }
    {
        self.next += count;
    }

    /// Takes the next byte of those that are held.
    pub fn take_byte(&mut self) -> u8
        requires { 0 < length self.old }
        ensures { self.old ≡ result ∷ self.new }
    {
        let byte = self.held()[0];
        self.skip(1);
        byte
    }

    /// Moves the held bytes of the line to its text, and takes its line feed.
    pub(crate) fn take_piece(&mut self, text: &mut LineText) -> Piece
        ensures { TakesPiece result text.old.items self.old text.new.items self.new }
    {
        let held = self.held();
        let count = held.len();
        let len = line_len(held);
        if text.try_extend_from_slice(&held[..len]).is_err() {
            return Piece::TooLong;
        }
        if len < count {
            self.skip(len + 1);
            return Piece::Ended;
        }
        self.skip(count);
        Piece::More
    }

    /// Reads the next line, without its line feed.
    pub fn read_line<S: Source>(
        &mut self,
        source: &mut S,
        text: &mut LineText,
    ) -> Result<Line, Failed>
        requires { text.old.items ≡ [] }
        ensures ok { IfOk result (λ line. WhereTold (prepend_known self.old (S.left source.old))
            (prepend_known self.new (S.left source.new))
            (TakesLine line text.new.items)) }
        ensures err { OnErr result (WhereTold (prepend_known self.old (S.left source.old))
            (prepend_known self.new (S.left source.new)) (BreaksOff text.new.items)) }
        ensures none { OnErr result (self.new ≡ []) }
        ensures cause { HasCause (S.faults source.old) (S.faults source.new) result }
    {
        while self.fill(source)? {
            match self.take_piece(text) {
                Piece::Ended => return Ok(Line::Whole),
                Piece::TooLong => return Ok(Line::TooLong),
                Piece::More => {}
            }
        }
        if text.is_empty() {
            Ok(Line::End)
        } else {
            Ok(Line::Last)
        }
    }
}

// How many bytes come before the first line feed.
fn line_len(bytes: &[u8]) -> usize
    ensures { result ≡ prefix_len (λ b. not (b == 10)) bytes.now }
{
    for (i, byte) in bytes.iter().enumerate() {
        if *byte == b'\n' {
            return i;
        }
    }
    bytes.len()
}
