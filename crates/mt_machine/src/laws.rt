//! Laws of lines.

ghost use Rattle.mt_machine.specs.Laws.{BoardsStay, LinesKeepTheDefect};

use mt_fls::running_calls_keep_the_board as fls_keeps_the_board;
use mt_ram::running_calls_keep_the_board as ram_keeps_the_board;

/// Running calls keep the board but for its words and its counts, and no line changes the defect that each power-up brings.
pub fn lines_keep_the_board()
    ensures calls { BoardsStay }
    ensures defect { LinesKeepTheDefect }
{
    ram_keeps_the_board();
    fls_keeps_the_board();
}
