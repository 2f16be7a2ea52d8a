//! A board that watches another one.

ghost use Rattle.std.specs.Prelude.{◌≡◌, ◌<◌, ◌≤◌, ◌+◌, ◌-◌, ◌^◌, length, slice_index, slice_set, true, false, [], ◌∷◌, Some, None, OnOk, OnErr, IfErr};
ghost use Rattle.mt_word.specs.Word.{Fits, width_bits};
ghost use Rattle.mt_fault.specs.History.{Read, Write};
ghost use Rattle.mt_fault.specs.Memory.{injection};
ghost use Rattle.mt_port.specs.Board.{after, answered, IsSoundOp, AreSoundRequests, IsWithinLimits, AnswerFits, first_due, first_left, after_take, after_op, op_answer, memory_of, powered_up, injected, flipped};
ghost use Rattle.mt_port.specs.Tape.{is_over, recorded};
ghost use Rattle.mt_port.specs.declared.board.Touch.{Touch};
ghost use Rattle.mt_board.specs.Watched.{account, account_of, Adds};
ghost use Rattle.mt_board.specs.Watching.{inner, listed};

use crate::deeds::{Deed, Deeds};
use arrayvec::ArrayVec;
use mt_fault::{Fault, FaultRefusal, Spot};
use mt_port::{Answer, AppOp, Bench, Due, Port, Request, Shape};
use mt_word::NoMemory;
use std::alloc::Global;

/// A board that is another board in every clause, and lists what is done on it.
///
/// The list has what was done since the latest power-up, or since the board was made: the first so many deeds, in order,
/// and how many more there were. It has each access, since `cells_to_test` answers none, as a board of real memory does:
/// so no test leaves accesses out for speed. If accesses are counted and not made, the list says so.
#[derive(Drop)]
pub struct Watched<B> {
    board: B,
    deeds: Deeds,
}

impl<B: Bench> Watched<B> {
    /// Watches a board from now on.
    pub fn new(board: B, deeds: Deeds) -> Watched<B>
        ensures inner { inner result ≡ board }
        ensures list { listed result ≡ account_of deeds }
    {
        Watched { board, deeds }
    }

    /// The deeds that there was room for, in order.
    pub fn deeds(&self) -> &[Deed]
        ensures { result.now ≡ (listed self.now).items }
    {
        self.deeds.items()
    }

    /// How many more there were; 2^64 - 1 stands for all greater numbers too.
    pub fn left_out(&self) -> u64
        ensures { result ≡ (listed self.now).left_out }
    {
        self.deeds.left_out()
    }
}

impl<B: Bench> Port for Watched<B> {
    ghost state = { λ w. B.state w.board };

    ghost tape = { λ w. B.tape w.board };

    ghost keeps = { B.keeps };

    ghost sound = { λ w. B.sound w.board };

    fn hold(&mut self)
        requires { (B.state (inner self.old)).held ≡ false }
        ensures state { B.state (inner self.new)
            ≡ record (B.state (inner self.old)) { held = true; since = (B.state (inner self.old)).count } }
        ensures tape { B.tape (inner self.new) ≡ B.tape (inner self.old) }
        ensures list { Adds (listed self.old) (listed self.new) Deed.Hold }
    {
        self.board.hold();
        self.deeds.add(Deed::Hold);
    }

    fn release(&mut self)
        requires { (B.state (inner self.old)).held ≡ true }
        ensures state { B.state (inner self.new) ≡ record (B.state (inner self.old)) { held = false } }
        ensures tape { B.tape (inner self.new) ≡ B.tape (inner self.old) }
        ensures list { Adds (listed self.old) (listed self.new) Deed.Release }
    {
        self.board.release();
        self.deeds.add(Deed::Release);
    }

    fn read(&mut self, addr: u32) -> u64
        requires held { (B.state (inner self.old)).held ≡ true }
        requires inside { addr < (B.state (inner self.old)).shape.ram }
        requires room { (B.state (inner self.old)).count < 2 ^ 32 - 1 }
        ensures word { result ≡ answered (B.state (inner self.old)).fault (B.state (inner self.old)).words addr }
        ensures fits { Fits (B.state (inner self.old)).shape.width result }
        ensures state { B.state (inner self.new)
            ≡ record (B.state (inner self.old)) {
              words = after (B.state (inner self.old)).fault (B.state (inner self.old)).words (Read addr);
              count = (B.state (inner self.old)).count + 1;
            } }
        ensures tape { B.tape (inner self.new) ≡ recorded B.keeps (B.tape (inner self.old)) (Touch.Read addr) }
        ensures list { Adds (listed self.old) (listed self.new) (Deed.Read addr result) }
    {
        let word = self.board.read(addr);
        self.deeds.add(Deed::Read { addr, word });
        word
    }

    fn write(&mut self, addr: u32, word: u64)
        requires held { (B.state (inner self.old)).held ≡ true }
        requires inside { addr < (B.state (inner self.old)).shape.ram }
        requires fits { Fits (B.state (inner self.old)).shape.width word }
        requires room { (B.state (inner self.old)).count < 2 ^ 32 - 1 }
        ensures state { B.state (inner self.new)
            ≡ record (B.state (inner self.old)) {
              words = after (B.state (inner self.old)).fault (B.state (inner self.old)).words (Write addr word);
              count = (B.state (inner self.old)).count + 1;
            } }
        ensures tape { B.tape (inner self.new)
            ≡ recorded B.keeps (B.tape (inner self.old)) (Touch.Write addr word) }
        ensures list { Adds (listed self.old) (listed self.new) (Deed.Write addr word) }
    {
        self.board.write(addr, word);
        self.deeds.add(Deed::Write { addr, word });
    }

    fn flash_read(&mut self, addr: u32) -> u64
        requires held { (B.state (inner self.old)).held ≡ true }
        requires inside { addr < (B.state (inner self.old)).shape.flash }
        requires room { (B.state (inner self.old)).count < 2 ^ 32 - 1 }
        ensures word { result ≡ slice_index (B.state (inner self.old)).flash addr }
        ensures fits { Fits (B.state (inner self.old)).shape.width result }
        ensures state { B.state (inner self.new)
            ≡ record (B.state (inner self.old)) { count = (B.state (inner self.old)).count + 1 } }
        ensures tape { B.tape (inner self.new)
            ≡ recorded B.keeps (B.tape (inner self.old)) (Touch.Flash addr) }
        ensures list { Adds (listed self.old) (listed self.new) (Deed.FlashRead addr result) }
    {
        let word = self.board.flash_read(addr);
        self.deeds.add(Deed::FlashRead { addr, word });
        word
    }

    fn app(&mut self, op: &AppOp) -> Answer
        requires free { (B.state (inner self.old)).held ≡ false }
        requires inside { IsSoundOp (B.state (inner self.old)).shape op.now }
        ensures answer { result ≡ op_answer (B.state (inner self.old)) op.now }
        ensures fits { AnswerFits (B.state (inner self.old)).shape.width result }
        ensures state { B.state (inner self.new) ≡ after_op (B.state (inner self.old)) op.now }
        ensures tape { B.tape (inner self.new) ≡ B.tape (inner self.old) }
        ensures list { Adds (listed self.old) (listed self.new) (Deed.App op.now result) }
    {
        let answer = self.board.app(op);
        self.deeds.add(Deed::App { op: *op, answer });
        answer
    }

    fn take_due(&mut self) -> Option<Due>
        requires { (B.state (inner self.old)).held ≡ false }
        ensures due { result
            ≡ first_due (B.state (inner self.old)).count (B.state (inner self.old)).taken
            (B.state (inner self.old)).left }
        ensures state { B.state (inner self.new) ≡ after_take (B.state (inner self.old)) result }
        ensures tape { B.tape (inner self.new) ≡ B.tape (inner self.old) }
        ensures list { listed self.new ≡ listed self.old }
    {
        self.board.take_due()
    }

    fn take_left(&mut self) -> Option<Due>
        requires { (B.state (inner self.old)).held ≡ false }
        ensures due { result
            ≡ first_left (B.state (inner self.old)).count (B.state (inner self.old)).taken
            (B.state (inner self.old)).left }
        ensures state { B.state (inner self.new) ≡ after_take (B.state (inner self.old)) result }
        ensures tape { B.tape (inner self.new) ≡ B.tape (inner self.old) }
        ensures list { listed self.new ≡ listed self.old }
    {
        self.board.take_left()
    }

    fn urgent_due(&self) -> bool {
        self.board.urgent_due()
    }

    fn next_urgent(&self) -> Option<u32> {
        self.board.next_urgent()
    }

    fn made(&self) -> u32 {
        self.board.made()
    }

    fn shape(&self) -> Shape {
        self.board.shape()
    }

    fn count_up_to(&mut self, count: u32)
        requires ahead { (B.state (inner self.old)).count ≤ count }
        requires over { is_over B.keeps (B.tape (inner self.old)) (count - (B.state (inner self.old)).count)
            ≡ true }
        ensures state { B.state (inner self.new) ≡ record (B.state (inner self.old)) { count = count } }
        ensures tape { B.tape (inner self.new) ≡ None }
        ensures list { Adds (listed self.old) (listed self.new) (Deed.CountUpTo count) }
    {
        self.board.count_up_to(count);
        self.deeds.add(Deed::CountUpTo { count });
    }
}

impl<B: Bench> Bench for Watched<B> {
    fn power_up(&mut self, alloc: Global, shape: Shape, initial: u64) -> Result<(), NoMemory>
        requires sizes { IsWithinLimits shape }
        requires fits { Fits shape.width initial }
        ensures state { OnOk result (B.state (inner self.new)
            ≡ powered_up shape initial (B.state (inner self.old)).defect) }
        ensures tape { OnOk result (B.tape (inner self.new) ≡ Some []) }
        ensures err { OnErr result ((B.state (inner self.new) ≡ B.state (inner self.old))
            × (B.tape (inner self.new) ≡ B.tape (inner self.old))) }
        ensures list { OnOk result (listed self.new
            ≡ account (listed self.old).room (Deed.PowerUp shape initial ∷ [])) }
        ensures unlisted { OnErr result (listed self.new ≡ listed self.old) }
    {
        match self.board.power_up(alloc, shape, initial) {
            Ok(()) => {
                self.deeds.begin(Deed::PowerUp { shape, initial });
                Ok(())
            }
            Err(error) => Err(error),
        }
    }

    fn begin_event(&mut self, requests: &mut ArrayVec<Request, 16>)
        requires free { (B.state (inner self.old)).held ≡ false }
        requires none { (B.state (inner self.old)).left ≡ [] }
        requires sound { AreSoundRequests (B.state (inner self.old)).shape requests.old.items }
        ensures state { B.state (inner self.new)
            ≡ record (B.state (inner self.old)) { left = requests.old.items; taken = 0; count = 0 } }
        ensures moved { requests.new.items ≡ [] }
        ensures tape { B.tape (inner self.new) ≡ B.tape (inner self.old) }
        ensures list { Adds (listed self.old) (listed self.new)
            (Deed.BeginEvent (length requests.old.items)) }
    {
        let count = requests.len() as u8;
        self.board.begin_event(requests);
        self.deeds.add(Deed::BeginEvent { requests: count });
    }

    fn end_event(&mut self)
        requires free { (B.state (inner self.old)).held ≡ false }
        requires none { (B.state (inner self.old)).left ≡ [] }
        ensures state { B.state (inner self.new) ≡ record (B.state (inner self.old)) { count = 0 } }
        ensures tape { B.tape (inner self.new) ≡ B.tape (inner self.old) }
        ensures list { Adds (listed self.old) (listed self.new) Deed.EndEvent }
    {
        self.board.end_event();
        self.deeds.add(Deed::EndEvent);
    }

    fn inject(&mut self, fault: Fault) -> Result<(), FaultRefusal>
        ensures answer { result ≡ injection (memory_of (B.state (inner self.old))) fault }
        ensures ok { OnOk result (B.state (inner self.new) ≡ injected (B.state (inner self.old)) fault) }
        ensures err { OnErr result (B.state (inner self.new) ≡ B.state (inner self.old)) }
        ensures tape { B.tape (inner self.new) ≡ B.tape (inner self.old) }
        ensures list { OnOk result (Adds (listed self.old) (listed self.new) (Deed.Inject fault)) }
        ensures refused { IfErr result (λ refusal. Adds (listed self.old) (listed self.new)
            (Deed.Refuse fault refusal)) }
    {
        match self.board.inject(fault) {
            Ok(()) => {
                self.deeds.add(Deed::Inject { fault });
                Ok(())
            }
            Err(refusal) => {
                self.deeds.add(Deed::Refuse { fault, refusal });
                Err(refusal)
            }
        }
    }

    fn heal(&mut self)
        ensures state { B.state (inner self.new) ≡ record (B.state (inner self.old)) { fault = None } }
        ensures tape { B.tape (inner self.new) ≡ B.tape (inner self.old) }
        ensures list { Adds (listed self.old) (listed self.new) Deed.Heal }
    {
        self.board.heal();
        self.deeds.add(Deed::Heal);
    }

    fn burn(&mut self, addr: u32, word: u64)
        requires inside { addr < (B.state (inner self.old)).shape.flash }
        requires fits { Fits (B.state (inner self.old)).shape.width word }
        ensures state { B.state (inner self.new)
            ≡ record (B.state (inner self.old)) {
              flash = slice_set (B.state (inner self.old)).flash addr word;
            } }
        ensures tape { B.tape (inner self.new) ≡ B.tape (inner self.old) }
        ensures list { Adds (listed self.old) (listed self.new) (Deed.Burn addr word) }
    {
        self.board.burn(addr, word);
        self.deeds.add(Deed::Burn { addr, word });
    }

    fn flip(&mut self, at: Spot)
        requires inside { at.word < (B.state (inner self.old)).shape.flash }
        requires bit { at.bit < width_bits (B.state (inner self.old)).shape.width }
        ensures state { B.state (inner self.new)
            ≡ record (B.state (inner self.old)) { flash = flipped (B.state (inner self.old)).flash at } }
        ensures tape { B.tape (inner self.new) ≡ B.tape (inner self.old) }
        ensures list { Adds (listed self.old) (listed self.new) (Deed.Flip at) }
    {
        self.board.flip(at);
        self.deeds.add(Deed::Flip { at });
    }
}
