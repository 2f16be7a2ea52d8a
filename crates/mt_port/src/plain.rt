//! A sound board for tests, with a tape of its accesses.

ghost use Rattle.std.specs.Prelude.{◌≡◌, ◌<◌, ◌≤◌, Some, None, All, length, replicate, IfOk, []};
ghost use Rattle.std.specs.Option.{option_copied};
ghost use Rattle.mt_word.specs.Word.{Fits};

use crate::board::{Port, Shape, Touch};
use crate::request::{Answer, AppOp, Due};
use crate::tape::Tape;
use mt_word::{NoMemory, flip, wrapping_sum};
use std::alloc::Global;

/// A board whose memory has no fault, and which has no requests.
#[derive(Drop)]
pub struct PlainBoard {
    shape: Shape,
    words: Vec<u64>,
    flash: Vec<u64>,
    held: bool,
    since: u32,
    count: u32,
    operations: u32,
    tape: Tape,
    ghost limit: { shape.ram ≤ 65536 },
    ghost flash_limit: { shape.flash ≤ 65536 },
    ghost sized: { length words.items ≡ shape.ram },
    ghost fit: { All (λ w. Fits shape.width w) words.items },
    ghost flash_sized: { length flash.items ≡ shape.flash },
    ghost flash_fit: { All (λ w. Fits shape.width w) flash.items },
}

fn words_of(alloc: Global, count: u32, word: u64) -> Result<Vec<u64>, NoMemory>
    ensures { IfOk result (λ words. words.items ≡ replicate count word) }
{
    match vec![in alloc; word; count as usize] {
        Ok(words) => Ok(words),
        Err(_) => Err(NoMemory),
    }
}

impl PlainBoard {
    ghost use Rattle.mt_port.specs.PlainBoard.{plain_state, plain_tape};
    ghost use Rattle.mt_port.specs.Board.{IsWithinLimits, powered_up};

    #[tactic(auto, unfolding(crate::specs::Board::powered_up))]
    /// A board of this shape. Every RAM word is `initial`, and every flash word has all bits one.
    pub fn new(alloc: Global, shape: Shape, initial: u64) -> Result<PlainBoard, NoMemory>
        requires sizes { IsWithinLimits shape }
        requires fits { Fits shape.width initial }
        ensures state { IfOk result (λ b. plain_state b ≡ powered_up shape initial None) }
        ensures tape { IfOk result (λ b. plain_tape b ≡ Some []) }
    {
        let words = words_of(alloc, shape.ram, initial)?;
        let flash = words_of(alloc, shape.flash, flip(shape.width, 0))?;
        Ok(PlainBoard {
            shape,
            words,
            flash,
            held: false,
            since: 0,
            count: 0,
            operations: 0,
            tape: Tape::new(),
        })
    }

    /// The accesses since the board was made, where there were at most 256.
    pub fn tape(&self) -> Option<&[Touch]>
        ensures { option_copied result ≡ plain_tape self.now }
    {
        self.tape.items()
    }
}

#[tactic(auto, using(mt_fault::proofs::PlainMemory::plain_write, mt_fault::proofs::PlainMemory::plain_read))]
impl Port for PlainBoard {
    ghost use Rattle.std.proofs.Common.{lit≤, subst, sym};
    ghost use Rattle.mt_fault.proofs.PlainMemory.{plain_still};
    ghost use Rattle.mt_port.specs.PlainBoard.{plain_state, plain_tape};

    ghost state = { λ b. plain_state b };

    ghost tape = { λ b. plain_tape b };

    ghost keeps = { 256 };

    ghost sound = { λ b. record { sized = b.sized; limit = b.limit; flash_limit = b.flash_limit; memory = record { limit = subst (λ n. n ≤ 65536) (sym b.sized) b.limit; fits = λ a inside. b.fit a 0 inside; placed = tt; settled = plain_still b.words.items }; flash_sized = b.flash_sized; flash_fit = b.flash_fit; few = lit≤ tt } };

    fn hold(&mut self) {
        self.held = true;
        self.since = self.count;
    }

    fn release(&mut self) {
        self.held = false;
    }

    fn read(&mut self, addr: u32) -> u64 {
        self.count += 1;
        self.tape.add_read(addr);
        self.words[addr as usize]
    }

    fn write(&mut self, addr: u32, word: u64) {
        self.count += 1;
        self.tape.add_write(addr, word);
        self.words[addr as usize] = word;
    }

    fn flash_read(&mut self, addr: u32) -> u64 {
        self.count += 1;
        self.tape.add(Touch::Flash { addr });
        self.flash[addr as usize]
    }

    fn app(&mut self, op: &AppOp) -> Answer {
        self.operations = self.operations.wrapping_add(1);
        match *op {
            AppOp::Read { addr } => Answer::Word(self.words[addr as usize]),
            AppOp::Write { addr, word } => {
                self.words[addr as usize] = word;
                Answer::Done
            }
            AppOp::Add { addr, word } => {
                let sum = wrapping_sum(self.shape.width, self.words[addr as usize], word);
                self.words[addr as usize] = sum;
                Answer::Word(sum)
            }
            AppOp::Copy { src, dst } => {
                let word = self.words[src as usize];
                self.words[dst as usize] = word;
                Answer::Word(word)
            }
            AppOp::Flash { addr } => Answer::Word(self.flash[addr as usize]),
        }
    }

    fn take_due(&mut self) -> Option<Due> {
        None
    }

    fn take_left(&mut self) -> Option<Due> {
        None
    }

    fn urgent_due(&self) -> bool {
        false
    }

    fn next_urgent(&self) -> Option<u32> {
        None
    }

    fn made(&self) -> u32 {
        self.count
    }

    fn shape(&self) -> Shape {
        self.shape
    }

    fn count_up_to(&mut self, count: u32) {
        self.count = count;
        self.tape.end();
    }
}
