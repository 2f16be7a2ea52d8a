//! The accesses of an algorithm, made on a memory.

ghost use Rattle.std.specs.Prelude.{◌≡◌, ◌≢◌, ◌<◌, ◌≤◌, ◌+◌, ◌^◌, [], not, length};
ghost use Rattle.mt_word.specs.Word.{Fits};
ghost use Rattle.mt_fault.specs.Faulty.{words_after};
ghost use Rattle.mt_fault.specs.Items.{access_of, agrees, history};
ghost use Rattle.mt_fault.specs.Memory.{after_access};
ghost use Rattle.mt_plan.specs.Accesses.{act_on};
ghost use Rattle.mt_plan.specs.Plan.{IsAccepted};
ghost use Rattle.mt_decoder.specs.Misses.{accesses, first_miss};

use mt_fault::{Cells, test_accesses_may_be_cut};
use mt_plan::{Act, Algorithm, step_at, steps};
use mt_word::{Width, flip};

/// Makes one step on the word at an address, and answers whether it is a checked read that answered another word.
fn misses(cells: &mut Cells, width: Width, addr: u32, background: u64, act: Act) -> bool
    requires width { width ≡ cells.old.width }
    requires addr { addr < length cells.old.words }
    requires background { Fits width background }
    ensures after { cells.new ≡ after_access cells.old (access_of (act_on width addr background act)) }
    ensures size { length cells.new.words ≡ length cells.old.words }
    ensures miss { result ≡ not (agrees cells.old.fault cells.old.words [] (act_on width addr background act)) }
{
    match act {
        Act::WritePlain => {
            cells.write(addr, background);
            false
        }
        Act::WriteFlipped => {
            cells.write(addr, flip(width, background));
            false
        }
        Act::ReadPlain => cells.read(addr) != background,
        Act::ReadFlipped => cells.read(addr) != flip(width, background),
    }
}

/// Makes all accesses of an algorithm on the `n` words from `first` on, in their order, and answers the index, among
/// them, of the first checked read that did not answer its word. The one background word is that of all cells.
pub fn caught_at(
    cells: &mut Cells,
    alg: &Algorithm,
    background: u64,
    first: u32,
    n: u32,
) -> Option<u32>
    requires some { 1 ≤ n }
    requires small { n ≤ 64 }
    requires inside { first + n ≤ length cells.old.words }
    requires background { Fits cells.old.width background }
    requires accepted { IsAccepted alg.now }
    requires fixed { alg.now ≢ Algorithm.TransparentGalpat }
    ensures index { result
        ≡ first_miss cells.old.fault cells.old.words (accesses cells.old.width alg.now background first n) }
    ensures after { cells.new ≡ record cells.old {
      words = words_after cells.old.fault cells.old.words (history (accesses cells.old.width alg.now background first n));
    } }
{
    test_accesses_may_be_cut();
    let width = cells.width();
    let mut found = None;
    for index in 0..steps(alg, n) {
        let step = step_at(alg, n, index);
        let missed = misses(
            cells,
            width,
            first + u32::from(step.cell),
            background,
            step.act,
        );
        found = found.or(missed.then_some(index));
    }
    found
}
