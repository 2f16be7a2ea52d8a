//! The line feeds of the text that is matched so far.

ghost use Rattle.std.specs.Prelude.{◌≡◌, ◌<◌, ◌+◌};
ghost use Rattle.mt_verify.specs.Lines.{feeds, feed_limit, line_at_end};

use std::marker::Model;

/// How much of the expected text is matched. Contracts see the number of its line feeds.
#[derive(Clone, Copy, Debug, PartialEq, Eq)]
pub struct Tally {
    feeds: u32,
}

impl Model for Tally {
    ghost use Rattle.std.specs.Prelude.{ℕ, ◌<◌};
    ghost use Rattle.mt_verify.specs.Lines.{feed_limit};

    ghost Value = { ℕ };

    ghost view = { λ t. t.feeds };

    ghost inverse = { λ n. record { feeds = n } };

    ghost invariant = { λ t. t.feeds < feed_limit };
}

impl Tally {
    /// Nothing is matched yet.
    pub fn new() -> Tally
        ensures { result ≡ 0 }
    {
        Tally { feeds: 0 }
    }

    /// These bytes are matched too.
    pub fn take(&mut self, matched: &[u8])
        requires { self.old + feeds matched.now < feed_limit }
        ensures { self.new ≡ self.old + feeds matched.now }
    {
        let more = matched.iter().filter(|byte| **byte == b'\n').count();
        self.feeds += more as u32;
    }

    /// The first other line where the next given byte is not the expected one, or where no byte is expected any more.
    /// Lines are counted from 1.
    pub fn other_line(&self) -> u32
        ensures line { result ≡ self.now + 1 }
        ensures bound { self.now < feed_limit }
    {
        self.feeds + 1
    }

    /// The first other line where the given text ended and `next` is expected: a line feed there ends a line that both
    /// texts have, so the line behind it is the first that is not given. Where `next` is the last expected byte and a
    /// line feed, no line is another one, and this answer has no meaning.
    pub fn ended_line(&self, next: u8) -> u32
        ensures line { result ≡ line_at_end self.now next }
        ensures bound { self.now < feed_limit }
    {
        match next {
            b'\n' => self.feeds + 2,
            _ => self.feeds + 1,
        }
    }
}
