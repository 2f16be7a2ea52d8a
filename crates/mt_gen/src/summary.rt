//! What is added up over a replay.

ghost use Rattle.std.specs.Prelude.{◌≡◌, ◌<◌, ◌≤◌, ◌+◌, ◌-◌, ◌*◌, ◌^◌, [], ℕ, List, fold, length};
ghost use Rattle.mt_gen.specs.Summary.{summary_of, with_entry};

use mt_window::{Entry, Reply};

/// What came of a replay: its lines, the test accesses of all its events, the requests that were served, and how many
/// test accesses the longest of them waited, 0 where there was none.
#[derive(Clone, Copy, Debug, PartialEq, Eq)]
pub struct Summary {
    pub lines: u32,
    pub ran: u64,
    pub served: u32,
    pub longest: u32,
}

impl Summary {
    /// Nothing was entered yet.
    #[tactic(auto, unfolding(crate::specs::Summary::summary_of))]
    pub fn new() -> Summary
        ensures { result ≡ summary_of 0 [] }
    {
        Summary {
            lines: 0,
            ran: 0,
            served: 0,
            longest: 0,
        }
    }

    // Adds an entry, where there is room for any.
    fn add(&mut self, entry: &Entry)
        requires ran { self.old.ran + (2 ^ 32 - 1) < 2 ^ 64 }
        requires served { self.old.served + 1 < 2 ^ 32 }
        ensures sums { self.new ≡ with_entry self.old entry.now }
        ensures ran { self.new.ran ≤ self.old.ran + (2 ^ 32 - 1) }
        ensures served { self.new.served ≤ self.old.served + 1 }
    {
        match entry {
            Entry::Served { wait, .. } => {
                self.served += 1;
                self.longest = self.longest.max(*wait);
            }
            Entry::Inner(Reply::Ran(accesses)) | Entry::Own(Reply::Ran(accesses)) => {
                self.ran += u64::from(*accesses);
            }
            Entry::Inner(_) | Entry::Own(_) => {}
        }
    }
    /// Adds some entries, one after another.
    pub fn add_all(&mut self, entries: &[Entry])
        requires ran { self.old.ran + length entries.now * (2 ^ 32 - 1) < 2 ^ 64 }
        requires served { self.old.served + length entries.now < 2 ^ 32 }
        ensures sums { self.new ≡ fold with_entry self.old entries.now }
        ensures ran { self.new.ran ≤ self.old.ran + length entries.now * (2 ^ 32 - 1) }
        ensures served { self.new.served ≤ self.old.served + length entries.now }
    {
        for entry in entries {
            self.add(entry);
        }
    }
}
