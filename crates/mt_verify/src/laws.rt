//! Laws of the first other line.

ghost use Rattle.mt_verify.specs.Laws.{FirstOtherIsLeast, NoOtherWhereEqual};
ghost use Rattle.mt_verify.specs.Laws.{LinesEndAtFeeds, LinesJoin, FeedsMakeWhole, WholeTextsJoin, WholeTextsHaveTheirFeeds};
ghost use Rattle.mt_verify.specs.Laws.{MismatchesTell, ExpectedEnds, GivenEnds, GivenEndsInALine, GivenEndsBeforeAFeed, GivenEndsBetweenLines};
ghost use Rattle.mt_verify.specs.Laws.{EqualTextsHaveNoOther, LastFeedMayLack};
ghost use Rattle.mt_verify.specs.Inner.OpenLines.{FeedsEndOpenLines};

/// The first other line is the least at which two lists differ, and there is none exactly where they are equal.
pub fn first_other_is_least()
    ensures least { FirstOtherIsLeast }
    ensures none { NoOtherWhereEqual }
{}

/// A line ends at its line feed. A text that ends with a line feed is whole; what stands behind it begins a line.
pub fn whole_lines()
    ensures first { LinesEndAtFeeds }
    ensures behind { LinesJoin }
    ensures whole { FeedsMakeWhole }
    ensures joined { WholeTextsJoin }
{}

/// A text that is empty or ends with a line feed has as many lines as line feeds.
pub fn line_counts()
    ensures { WholeTextsHaveTheirFeeds }
{}

/// Where the next bytes of both texts differ, the first other line is the one behind the line feeds that both share.
pub fn mismatches()
    ensures { MismatchesTell }
{}

/// Where the expected text is empty or ends with a line feed, and more is given, the first given line too many is the
/// first other one.
pub fn expected_ends()
    ensures { ExpectedEnds }
{}

/// Where the given text ended and more is expected: within a line that line is the first other one; before a line feed
/// it is the next line, if there is one; at a line's end it is the line behind it, be it empty. Where no expected line is
/// empty, one number says all three.
pub fn given_ends()
    ensures answer { GivenEnds }
    ensures line { GivenEndsInALine }
    ensures feed { GivenEndsBeforeAFeed }
    ensures between { GivenEndsBetweenLines }
{}

/// Equal texts have no other line, nor has a text that lacks the last line feed alone.
pub fn equal_texts()
    ensures equal { EqualTextsHaveNoOther }
    ensures feed { LastFeedMayLack }
{}

/// Where no line is empty, what stands before a line feed has a byte, and the last one is no line feed.
pub fn feeds_end_open_lines()
    ensures { FeedsEndOpenLines }
{}
