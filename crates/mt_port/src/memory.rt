//! Streams over memory, for tests and for jobs at hand.

ghost use Rattle.std.specs.Prelude.{◌≡◌, ◌<◌, ◌≤◌, ◌+◌, ◌-◌, ◌^◌, ◌⊎◌, ◌↔◌, ℕ, [], ◌∷◌, ◌++◌, Some, None, All, Contains, length, take, drop, vec_len, vec_capacity, IsTrue, IfOk, IsOk, IsOkAnd, OnOk, min};
ghost use Rattle.std.specs.Io.{ReadsAtMost};
ghost use Rattle.std.specs.Io.KnownBytes.{ReadConsumes, WriteAppends};
ghost use Rattle.mt_port.specs.Causes.{HasCause};
ghost use Rattle.mt_port.specs.Streams.{TakesSome, KeepsRest};

use crate::places::{fail_at, is_place, room_before};
use crate::stream::{Failed, Sink, Source};
use mt_word::NoMemory;
use std::alloc::Global;

// Copies the next bytes to the front of `buf`.
fn give(bytes: &[u8], given: usize, buf: &mut [u8], count: usize)
    requires left { given + count ≤ length bytes.now }
    requires room { count ≤ length buf.old }
    ensures given { drop given bytes.now ≡ take count buf.new ++ drop (given + count) bytes.now }
    ensures rest { drop count buf.new ≡ drop count buf.old }
{
    buf[..count].copy_from_slice(&bytes[given..given + count]);
}

/// A source over memory that never fails.
#[derive(Drop)]
pub struct PlainSource {
    bytes: Vec<u8>,
    given: usize,
    ghost within: { given ≤ vec_len bytes },
}

impl PlainSource {
    ghost use Rattle.mt_port.specs.Memory.{plain_left};

    /// A source that has these bytes to give.
    pub fn new(bytes: Vec<u8>) -> PlainSource
        ensures { plain_left result ≡ bytes.items }
    {
        PlainSource { bytes, given: 0 }
    }
}

impl Source for PlainSource {
    ghost use Rattle.mt_port.specs.Memory.{plain_left};
    ghost use Rattle.std.proofs.Common.{lit<};

    ghost left = { λ s. Some (drop s.given s.bytes.items) };

    ghost faults = { λ _. 0 };

    ghost counted = { λ _. lit< tt };

    fn read(&mut self, buf: &mut [u8]) -> Result<usize, Failed>
        ensures bound { ReadsAtMost result buf.new }
        ensures bytes { ReadConsumes (Some (plain_left self.old)) (Some (plain_left self.new)) result buf.new }
        ensures cause { HasCause 0 0 result }
        ensures rest { KeepsRest result buf.old buf.new }
        ensures most { IsOkAnd result (λ n. n ≡ min (length buf.old) (length (plain_left self.old))) }
    {
        let count = buf.len().min(self.bytes.len() - self.given);
        give(&self.bytes, self.given, buf, count);
        self.given += count;
        Ok(count)
    }
}

/// A source over memory that gives at most `piece` bytes a call, and fails once at each of the places in `fails`.
/// A place is the number of bytes that were given before.
#[derive(Drop)]
pub struct MemSource {
    bytes: Vec<u8>,
    given: usize,
    piece: usize,
    fails: Vec<u64>,
    faults: u64,
    ghost within: { given ≤ vec_len bytes },
    ghost moves: { 0 < piece },
    ghost counted: { faults < 2 ^ 64 },
}

impl MemSource {
    ghost use Rattle.mt_port.specs.Memory.{source_left, source_place, source_piece, source_fails, source_faults};

    /// A source that has these bytes to give, in pieces of at most `piece` bytes.
    pub fn new(bytes: Vec<u8>, piece: usize, fails: Vec<u64>) -> MemSource
        requires { 0 < piece }
        ensures left { source_left result ≡ bytes.items }
        ensures place { source_place result ≡ 0 }
        ensures piece { source_piece result ≡ piece }
        ensures fails { source_fails result ≡ fails.items }
        ensures faults { source_faults result ≡ 0 }
    {
        MemSource {
            bytes,
            given: 0,
            piece,
            fails,
            faults: 0,
        }
    }
}

impl Source for MemSource {
    ghost use Rattle.mt_port.specs.Memory.{ReadsUpTo, source_left, source_faults};

    ghost left = { λ s. Some (drop s.given s.bytes.items) };

    ghost faults = { λ s. s.faults };

    ghost counted = { λ s. s.counted };

    fn read(&mut self, buf: &mut [u8]) -> Result<usize, Failed>
        ensures bound { ReadsAtMost result buf.new }
        ensures bytes { ReadConsumes (Some (source_left self.old)) (Some (source_left self.new)) result buf.new }
        ensures cause { HasCause (source_faults self.old) (source_faults self.new) result }
        ensures rest { KeepsRest result buf.old buf.new }
        ensures places { ReadsUpTo self.old self.new (length buf.old) result }
    {
        let place = self.given as u64;
        if is_place(&self.fails, place) {
            fail_at(&mut self.fails, place);
            self.faults = self.faults.saturating_add(1);
            return Err(Failed);
        }
        let left = self.bytes.len() - self.given;
        let count = room_before(&self.fails, place, buf.len().min(left).min(self.piece));
        give(&self.bytes, self.given, buf, count);
        self.given += count;
        Ok(count)
    }
}

/// A sink over memory with room for so many bytes, which fails once at each of the places in `fails`,
/// and each time where it is full. A place is the number of bytes that it holds.
#[derive(Drop)]
pub struct MemSink {
    bytes: Vec<u8>,
    room: usize,
    fails: Vec<u64>,
    faults: u64,
    ghost within: { vec_len bytes ≤ room },
    ghost reserved: { room ≤ vec_capacity bytes },
    ghost counted: { faults < 2 ^ 64 },
}

impl MemSink {
    ghost use Rattle.mt_port.specs.Memory.{sink_bytes, sink_room, sink_fails, sink_faults};

    /// An empty sink; its room is reserved.
    pub fn new(alloc: Global, room: usize, fails: Vec<u64>) -> Result<MemSink, NoMemory>
        ensures bytes { IfOk result (λ s. sink_bytes s ≡ []) }
        ensures room { IfOk result (λ s. sink_room s ≡ room) }
        ensures fails { IfOk result (λ s. sink_fails s ≡ fails.items) }
        ensures faults { IfOk result (λ s. sink_faults s ≡ 0) }
    {
        match Vec::with_capacity(alloc, room) {
            Ok(bytes) => Ok(MemSink {
                bytes,
                room,
                fails,
                faults: 0,
            }),
            Err(_) => Err(NoMemory),
        }
    }

    /// The bytes that it holds.
    pub fn bytes(&self) -> &[u8]
        ensures { result.now ≡ sink_bytes self.now }
    {
        &self.bytes
    }
}

impl Sink for MemSink {
    ghost use Rattle.mt_port.specs.Memory.{WritesUpTo, sink_bytes, sink_faults};

    ghost held = { λ s. Some s.bytes.items };

    ghost faults = { λ s. s.faults };

    ghost counted = { λ s. s.counted };

    fn write(&mut self, piece: &[u8]) -> Result<usize, Failed>
        ensures bound { TakesSome result piece.now }
        ensures bytes { WriteAppends (Some (sink_bytes self.old)) (Some (sink_bytes self.new)) result piece.now }
        ensures cause { HasCause (sink_faults self.old) (sink_faults self.new) result }
        ensures places { WritesUpTo self.old self.new piece.now result }
    {
        let place = self.bytes.len() as u64;
        if is_place(&self.fails, place) || self.bytes.len() == self.room {
            fail_at(&mut self.fails, place);
            self.faults = self.faults.saturating_add(1);
            return Err(Failed);
        }
        let room = self.room - self.bytes.len();
        let count = room_before(&self.fails, place, piece.len().min(room));
        match self.bytes.extend_from_slice(&piece[..count]) {
            Ok(()) => Ok(count),
            // The room is reserved.
            Err(_) => unreachable!(),
        }
    }
}

/// A sink that takes all, tells nothing and never fails.
#[derive(Drop)]
pub struct NullSink {}

impl NullSink {
    /// The sink.
    pub fn new() -> NullSink {
        NullSink {}
    }
}

impl Sink for NullSink {
    ghost use Rattle.std.proofs.Common.{lit<};

    ghost held = { λ _. None };

    ghost faults = { λ _. 0 };

    ghost counted = { λ _. lit< tt };

    fn write(&mut self, piece: &[u8]) -> Result<usize, Failed>
        ensures bound { TakesSome result piece.now }
        ensures bytes { WriteAppends None None result piece.now }
        ensures cause { HasCause 0 0 result }
        ensures all { IsOkAnd result (λ n. n ≡ length piece.now) }
    {
        Ok(piece.len())
    }
}
