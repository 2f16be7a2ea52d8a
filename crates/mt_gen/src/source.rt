//! A source of generated lines.

ghost use Rattle.std.specs.Prelude.{◌≡◌, ◌<◌, ◌≤◌, ◌+◌, ◌++◌, ◌⊎◌, [], Some, IsOk, length, drop, take};
ghost use Rattle.std.specs.Io.{ReadsAtMost};
ghost use Rattle.std.specs.Io.KnownBytes.{ReadConsumes};
ghost use Rattle.arrayvec.specs.ArrayVec.{array_vec_len};
ghost use Rattle.mt_port.specs.Causes.{HasCause};
ghost use Rattle.mt_port.specs.Streams.{KeepsRest};
ghost use Rattle.mt_gen.specs.Script.{lines_behind, script, text_of};

use crate::line::{Text, first_text, next, push_line};
use mt_port::{Failed, Source};

/// How many lines are drawn behind the first three.
const DRAWN: u32 = 19_997;

// Copies the next bytes to the front of `buf`.
fn give(bytes: &[u8], given: usize, buf: &mut [u8], count: usize)
    requires left { given + count ≤ length bytes.now }
    requires room { count ≤ length buf.old }
    ensures given { drop given bytes.now ≡ take count buf.new ++ drop (given + count) bytes.now }
    ensures rest { drop count buf.new ≡ drop count buf.old }
{
    buf[..count].copy_from_slice(&bytes[given..given + count]);
}

/// A source over the script of a generated job. It holds one line at a time, takes no memory and never fails.
#[derive(Drop)]
pub struct GenSource {
    text: Text,
    given: usize,
    number: u64,
    behind: u32,
    ghost within: { given ≤ array_vec_len text },
}

impl GenSource {
    ghost use Rattle.mt_gen.specs.Source.{gen_left};

    /// The script with this number, from its first line on.
    #[tactic(auto, unfolding(crate::specs::Script::script))]
    pub fn new(number: u32) -> GenSource
        ensures { gen_left result ≡ text_of (script number) }
    {
        GenSource {
            text: first_text(),
            given: 0,
            number: u64::from(number),
            behind: DRAWN,
        }
    }

    // Takes up the next line, where there is one, behind one that was given.
    #[tactic(auto, unfolding(crate::specs::Script::lines_behind))]
    fn go_on(&mut self)
        requires { self.old.given ≡ length self.old.text.items }
        ensures left { gen_left self.new ≡ gen_left self.old }
        ensures some { (self.new.given < length self.new.text.items) ⊎ (gen_left self.new ≡ []) }
    {
        if self.behind == 0 {
            return;
        }
        self.behind -= 1;
        self.number = next(self.number);
        self.given = 0;
        self.text.clear();
        push_line(&mut self.text, self.number);
    }
}

impl Source for GenSource {
    ghost use Rattle.mt_gen.specs.Source.{gen_left};
    ghost use Rattle.std.proofs.Common.{lit<};

    ghost left = { λ s. Some (drop s.given s.text.items ++ text_of (lines_behind s.behind s.number)) };

    ghost faults = { λ _. 0 };

    ghost counted = { λ _. lit< tt };

    fn read(&mut self, buf: &mut [u8]) -> Result<usize, Failed>
        ensures bound { ReadsAtMost result buf.new }
        ensures bytes { ReadConsumes (Some (gen_left self.old)) (Some (gen_left self.new)) result buf.new }
        ensures cause { HasCause 0 0 result }
        ensures never_fails { IsOk result }
        ensures rest { KeepsRest result buf.old buf.new }
    {
        if self.given == self.text.len() {
            self.go_on();
        }
        let count = buf.len().min(self.text.len() - self.given);
        give(&self.text, self.given, buf, count);
        self.given += count;
        Ok(count)
    }
}
