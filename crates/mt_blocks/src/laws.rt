//! Laws of slices and groups.

ghost use Rattle.mt_blocks.specs.Laws.{SlicesAreTheBlock, OnlyTheLastIsShorter, GroupsFit, GroupsAreLongest, GroupsAreThePass, PassesGoOn, BlocksBegin, PassesBegin};
ghost use Rattle.mt_blocks.specs.Inner.Ticks.{GroupsTakeATick};

/// The slices of a block are the block, in order, each word once, and no slice but the last is shorter than the others.
pub fn slices_are_the_block()
    ensures words { SlicesAreTheBlock }
    ensures whole { OnlyTheLastIsShorter }
{}

/// The words of a group are at most as many as one tick tests, and with the next slice they would be more.
pub fn groups_are_longest()
    ensures fit { GroupsFit }
    ensures longest { GroupsAreLongest }
{}

/// The groups of a pass, one after another, are the pass.
pub fn groups_are_the_pass()
    ensures { GroupsAreThePass }
{}

/// What is left of a pass takes one tick more than what is left behind its first group.
pub fn groups_take_a_tick()
    ensures { GroupsTakeATick }
{}

/// From a position on, the slices of a pass are the one there, and then those from the next position on; so are those of a test
/// of a block.
pub fn passes_go_on()
    ensures { PassesGoOn }
{}

/// Where a pass and the test of a block begin, and how many words they have.
pub fn passes_begin()
    ensures pass { PassesBegin }
    ensures block { BlocksBegin }
{}
