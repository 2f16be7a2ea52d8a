//! Small pieces gathered, so that a sink is called seldom.

ghost use Rattle.std.specs.Prelude.{◌≡◌, ◌≤◌, ◌+◌, [], ◌++◌, length, OnOk, OnErr};
ghost use Rattle.std.specs.Io.KnownBytes.{Appends};
ghost use Rattle.mt_port.specs.Causes.{HasCause};
ghost use Rattle.mt_port.specs.Gathering.{Gathers};
ghost use Rattle.mt_port.specs.Streams.{AppendsFront};
ghost use Rattle.mt_port.specs.declared.gathered.TheConstants.{ROOM};

use crate::stream::{Failed, Sink, put};
use arrayvec::ArrayVec;
use std::marker::Model;

/// How many bytes are gathered at most.
pub const ROOM: usize = 4096;

/// Bytes that were passed for a sink, and that it has not been given yet.
#[derive(Drop)]
pub struct Gathered {
    bytes: ArrayVec<u8, ROOM>,
}

impl Model for Gathered {
    ghost use Rattle.std.specs.Prelude.{ℕ, List};

    ghost Value = { List ℕ };

    ghost view = { λ g. g.bytes.items };
}

impl Gathered {
    /// No bytes.
    pub fn new() -> Gathered
        ensures { result ≡ [] }
    {
        Gathered {
            bytes: ArrayVec::new(),
        }
    }

    /// Passes a piece for the sink, which is called only if the piece finds no room beside the bytes that wait.
    /// A failure drops them all: then the sink has a proper front of them and the piece.
    pub fn put<K: Sink>(&mut self, sink: &mut K, piece: &[u8]) -> Result<(), Failed>
        ensures ok { OnOk result (Gathers (K.held sink.old) (K.held sink.new) self.old self.new piece.now) }
        ensures err { OnErr result (AppendsFront (K.held sink.old) (K.held sink.new) (self.old ++ piece.now)) }
        ensures none { OnErr result (self.new ≡ []) }
        ensures cause { HasCause (K.faults sink.old) (K.faults sink.new) result }
        ensures seldom { length self.old + length piece.now ≤ ROOM → sink.new ≡ sink.old }
    {
        match self.bytes.try_extend_from_slice(piece) {
            Ok(()) => Ok(()),
            Err(_) => self.put_after_flush(sink, piece),
        }
    }

    // Makes room for a piece; one that is longer than all room goes to the sink at once.
    fn put_after_flush<K: Sink>(&mut self, sink: &mut K, piece: &[u8]) -> Result<(), Failed>
        ensures ok { OnOk result (Gathers (K.held sink.old) (K.held sink.new) self.old self.new piece.now) }
        ensures err { OnErr result (AppendsFront (K.held sink.old) (K.held sink.new) (self.old ++ piece.now)) }
        ensures none { OnErr result (self.new ≡ []) }
        ensures cause { HasCause (K.faults sink.old) (K.faults sink.new) result }
    {
        self.flush(sink)?;
        if piece.len() > ROOM {
            return put(sink, piece);
        }
        match self.bytes.try_extend_from_slice(piece) {
            Ok(()) => Ok(()),
            Err(_) => unreachable!(),
        }
    }

    /// Gives the sink the bytes that wait. A failure drops them: then the sink has a proper front of them.
    pub fn flush<K: Sink>(&mut self, sink: &mut K) -> Result<(), Failed>
        ensures ok { OnOk result (Appends (K.held sink.old) (K.held sink.new) self.old) }
        ensures err { OnErr result (AppendsFront (K.held sink.old) (K.held sink.new) self.old) }
        ensures none { self.new ≡ [] }
        ensures cause { HasCause (K.faults sink.old) (K.faults sink.new) result }
    {
        let passed = put(sink, &self.bytes);
        self.bytes.clear();
        passed
    }
}
