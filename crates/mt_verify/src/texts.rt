//! Two whole texts: the comparison as a caller makes it from its pieces.

ghost use Rattle.std.specs.Prelude.{◌≡◌, ◌<◌, length};
ghost use Rattle.mt_verify.specs.Lines.{feed_limit, first_other_line};
ghost use Rattle.mt_verify.specs.Laws.{IsWhole, HasNoEmptyLine};

use crate::{Tally, common};

/// The first other line of two whole texts, counted from 1; none where their lines are equal. Each expected line has its
/// line feed, and none is empty.
pub fn first_other(expected: &[u8], given: &[u8]) -> Option<u32>
    requires short { length expected.now < feed_limit }
    requires whole { IsWhole expected.now }
    requires full { HasNoEmptyLine expected.now }
    ensures { result ≡ first_other_line expected.now given.now }
{
    let same = common(expected, given) as usize;
    let mut tally = Tally::new();
    tally.take(&expected[..same]);
    if same < given.len() {
        return Some(tally.other_line());
    }
    if same == expected.len() {
        return None;
    }
    let next = expected[same];
    if next == b'\n' && same + 1 == expected.len() {
        return None;
    }
    Some(tally.ended_line(next))
}
