//! Laws of the first disturbed read.

ghost use Rattle.mt_decoder.specs.Misses.{NothingIsMissedWhereAllPass};

use mt_fault::test_accesses_may_be_cut;

/// There is no disturbed read exactly where each checked read answers its word.
pub fn nothing_is_missed_where_all_pass()
    ensures { NothingIsMissedWhereAllPass }
{
    test_accesses_may_be_cut();
}
