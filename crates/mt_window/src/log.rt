//! What an event enters.

ghost use Rattle.std.specs.Prelude.{◌≡◌, ◌<◌, ◌≤◌, [], ◌∷◌, ◌++◌, length};

use crate::reply::Reply;
use arrayvec::ArrayVec;
use std::marker::Model;

/// One entry of an event's trace: a request that is served, with its number in its line, the count of test accesses
/// and its wait in test accesses; the reply to an operation of a handler; the reply to the event itself.
#[derive(Clone, Copy, Debug, PartialEq, Eq)]
pub enum Entry {
    Served { number: u8, at: u32, wait: u32 },
    Inner(Reply),
    Own(Reply),
}

impl Default for Entry {
    ghost use Rattle.std.specs.Prelude.{◌≡◌};
    ghost use Rattle.mt_window.specs.declared.log.Entry.{Entry};
    ghost use Rattle.mt_window.specs.declared.reply.Reply.{Reply};

    ghost is_default = { λ e. e ≡ Entry.Own Reply.Done };

    fn default() -> Entry {
        Entry::Own(Reply::Done)
    }
}

/// At most 256 entries, in their order. An event makes at most 145: 16 requests, 128 operations and its own reply.
#[derive(Drop)]
pub struct EventLog {
    kept: ArrayVec<Entry, 256>,
}

impl Model for EventLog {
    ghost use Rattle.std.specs.Prelude.{List};
    ghost use Rattle.mt_window.specs.declared.log.Entry.{Entry};

    ghost Value = { List Entry };

    ghost view = { λ l. l.kept.items };
}

impl EventLog {
    pub fn new() -> EventLog
        ensures { result ≡ [] }
    {
        EventLog {
            kept: ArrayVec::new(),
        }
    }

    pub fn add(&mut self, entry: Entry)
        requires { length self.old < 256 }
        ensures { self.new ≡ self.old ++ entry ∷ [] }
    {
        self.kept.push(entry);
    }

    /// Drops all entries, so that the log serves the next event.
    pub fn clear(&mut self)
        ensures { self.new ≡ [] }
    {
        self.kept.clear();
    }

    /// The entries, in the order in which they were made.
    pub fn entries(&self) -> &[Entry]
        ensures entries { result.now ≡ self.now }
        ensures few { length result.now ≤ 256 }
    {
        self.kept.as_slice()
    }
}
