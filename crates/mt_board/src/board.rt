//! The board that the program runs on.

ghost use Rattle.std.specs.Prelude.{◌≡◌, ◌<◌, ◌≤◌, ◌+◌, ◌-◌, ◌^◌, ℕ, length, slice_index, slice_set, reverse, Some, None, OnOk, OnErr, true, false, [], ◌∷◌, ◌++◌};
ghost use Rattle.std.specs.Option.{option_copied};
ghost use Rattle.mt_port.specs.Board.{is_due};
ghost use Rattle.mt_board.specs.Requests.{least_urgent};

use crate::stores::Stores;
use arrayvec::ArrayVec;
use mt_fault::{Fault, FaultRefusal, Spot};
use mt_port::{Answer, AppOp, Bench, Due, Port, Request, Shape, Tape, Touch};
use mt_word::{NoMemory, Width, bit, with_bit, wrapping_sum};
use std::alloc::Global;

/// A simulated board. It may have a defect from the factory, which each power-up brings where it fits the shape.
///
/// Until its first power-up it has a shape of 8 bits without words.
#[derive(Drop)]
pub struct SimBoard {
    stores: Option<Stores>,
    defect: Option<Fault>,
    held: bool,
    since: u32,
    count: u32,
    // The requests left, the last one first.
    later: ArrayVec<Request, 16>,
    taken: u8,
    // The least offset of an urgent request left.
    urgent: Option<u32>,
    operations: u32,
    tape: Tape,
    ghost few: { taken + length later.items ≤ 16 },
    ghost least: { urgent ≡ least_urgent later.items },
}

// The least offset of an urgent request.
fn least_urgent(requests: &[Request]) -> Option<u32>
    ensures { result ≡ least_urgent requests.now }
{
    let mut least = None;
    for request in requests {
        if request.urgent {
            least = Some(least.map_or(request.offset, |offset: u32| offset.min(request.offset)));
        }
    }
    least
}

// Moves the requests of one list into another, the last one first. What stood there is dropped.
fn move_reversed(from: &mut ArrayVec<Request, 16>, to: &mut ArrayVec<Request, 16>)
    requires { length from.old.items ≤ 16 }
    ensures moved { to.new.items ≡ reverse from.old.items }
    ensures empty { from.new.items ≡ [] }
{
    to.clear();
    while let Some(request) = from.pop() {
        to.push(request);
    }
}

// Whether a least offset is due.
fn is_due(least: Option<u32>, count: u32) -> bool
    ensures { result ≡ is_due count least }
{
    match least {
        Some(offset) => offset <= count,
        None => false,
    }
}

impl SimBoard {
    ghost use Rattle.std.specs.declared.option.Option.{Option};
    ghost use Rattle.mt_word.specs.Word.{Fits};
    ghost use Rattle.mt_fault.specs.History.{Read, Write};
    ghost use Rattle.mt_fault.specs.Projection.{cells_of_fault};
    ghost use Rattle.mt_port.specs.Board.{after, answered};
    ghost use Rattle.mt_board.specs.Board.{unpowered, sim_state, sim_tape};

    /// A board without words and without a defect.
    pub fn new() -> SimBoard
        ensures state { sim_state result ≡ unpowered None }
        ensures tape { sim_tape result ≡ Some [] }
    {
        SimBoard::made_with(None)
    }

    /// A board without words, whose RAM has this defect from its power-up on.
    pub fn with_defect(fault: Fault) -> SimBoard
        ensures state { sim_state result ≡ unpowered (Some fault) }
        ensures tape { sim_tape result ≡ Some [] }
    {
        SimBoard::made_with(Some(fault))
    }

    fn made_with(defect: Option<Fault>) -> SimBoard
        ensures state { sim_state result ≡ unpowered defect }
        ensures tape { sim_tape result ≡ Some [] }
    {
        SimBoard {
            stores: None,
            defect,
            held: false,
            since: 0,
            count: 0,
            later: ArrayVec::new(),
            taken: 0,
            urgent: None,
            operations: 0,
            tape: Tape::new(),
        }
    }

    /// The test accesses since the latest power-up, or since the board was made, where there were at most 256.
    pub fn tape(&self) -> Option<&[Touch]>
        ensures { option_copied result ≡ sim_tape self.now }
    {
        self.tape.items()
    }

    // Reads a RAM word.
    #[inline(always)]
    fn load(&mut self, addr: u32) -> u64
        requires { addr < (sim_state self.old).shape.ram }
        ensures word { result ≡ answered (sim_state self.old).fault (sim_state self.old).words addr }
        ensures fits { Fits (sim_state self.old).shape.width result }
        ensures state { sim_state self.new
            ≡ record (sim_state self.old) {
              words = after (sim_state self.old).fault (sim_state self.old).words (Read addr);
            } }
        ensures tape { sim_tape self.new ≡ sim_tape self.old }
    {
        match &mut self.stores {
            Some(stores) => stores.read(addr),
            None => unreachable!(),
        }
    }

    // Writes a RAM word.
    #[inline(always)]
    fn store(&mut self, addr: u32, word: u64)
        requires addr { addr < (sim_state self.old).shape.ram }
        requires word { Fits (sim_state self.old).shape.width word }
        ensures state { sim_state self.new
            ≡ record (sim_state self.old) {
              words = after (sim_state self.old).fault (sim_state self.old).words (Write addr word);
            } }
        ensures tape { sim_tape self.new ≡ sim_tape self.old }
    {
        match &mut self.stores {
            Some(stores) => stores.write(addr, word),
            None => unreachable!(),
        }
    }

    // The cells of a slice that the fault names.
    fn cells_of_fault(&self, first: u32, n: u8) -> ArrayVec<u8, 2>
        ensures { result.items ≡ cells_of_fault (sim_state self.now).fault first n }
    {
        match &self.stores {
            Some(stores) => stores.cells_of_fault(first, n),
            None => ArrayVec::new(),
        }
    }

    // A flash word.
    fn flash_word(&self, addr: u32) -> u64
        requires { addr < (sim_state self.now).shape.flash }
        ensures word { result ≡ slice_index (sim_state self.now).flash addr }
        ensures fits { Fits (sim_state self.now).shape.width result }
    {
        match &self.stores {
            Some(stores) => stores.flash_word(addr),
            None => unreachable!(),
        }
    }
}

impl Port for SimBoard {
    ghost use Rattle.mt_board.specs.Board.{sim_state, sim_tape};
    ghost use Rattle.mt_board.specs.Sound.{sound_with};

    ghost state = { λ b. sim_state b };

    ghost tape = { λ b. sim_tape b };

    ghost keeps = { 256 };

    ghost sound = { λ b. sound_with b.stores b.held b.since b.count b.later.items b.taken b.operations b.defect b.few };

    fn hold(&mut self) {
        self.held = true;
        self.since = self.count;
    }

    fn release(&mut self) {
        self.held = false;
    }

    fn read(&mut self, addr: u32) -> u64 {
        self.count += 1;
        self.tape.add_read(addr);
        self.load(addr)
    }

    fn write(&mut self, addr: u32, word: u64) {
        self.count += 1;
        self.tape.add_write(addr, word);
        self.store(addr, word);
    }

    fn flash_read(&mut self, addr: u32) -> u64 {
        self.count += 1;
        self.tape.add(Touch::Flash { addr });
        self.flash_word(addr)
    }

    fn app(&mut self, op: &AppOp) -> Answer {
        self.operations = self.operations.wrapping_add(1);
        match *op {
            AppOp::Read { addr } => Answer::Word(self.load(addr)),
            AppOp::Write { addr, word } => {
                self.store(addr, word);
                Answer::Done
            }
            AppOp::Add { addr, word } => {
                let sum = wrapping_sum(self.shape().width, self.load(addr), word);
                self.store(addr, sum);
                Answer::Word(sum)
            }
            AppOp::Copy { src, dst } => {
                let word = self.load(src);
                self.store(dst, word);
                Answer::Word(word)
            }
            AppOp::Flash { addr } => Answer::Word(self.flash_word(addr)),
        }
    }

    fn take_due(&mut self) -> Option<Due> {
        match self.later.last() {
            Some(first) if first.offset <= self.count => self.take_left(),
            _ => None,
        }
    }

    fn take_left(&mut self) -> Option<Due> {
        let request = self.later.pop()?;
        self.urgent = least_urgent(&self.later);
        self.taken += 1;
        Some(Due {
            number: self.taken,
            at: self.count,
            request,
        })
    }

    fn urgent_due(&self) -> bool {
        is_due(self.urgent, self.count)
    }

    fn next_urgent(&self) -> Option<u32> {
        self.urgent
    }

    fn made(&self) -> u32 {
        self.count
    }

    fn cells_to_test(&self, first: u32, n: u8, count: u32) -> Option<ArrayVec<u8, 2>> {
        if self.tape.is_over_after(count) {
            Some(self.cells_of_fault(first, n))
        } else {
            None
        }
    }

    fn count_up_to(&mut self, count: u32) {
        self.count = count;
        self.tape.end();
    }

    fn shape(&self) -> Shape {
        match &self.stores {
            Some(stores) => stores.shape(),
            None => Shape {
                width: Width::W8,
                ram: 0,
                flash: 0,
            },
        }
    }
}

impl Bench for SimBoard {
    #[tactic(auto, unfolding(mt_port::specs::Board::powered_up))]
    fn power_up(&mut self, alloc: Global, shape: Shape, initial: u64) -> Result<(), NoMemory> {
        let stores = Stores::new(alloc, shape, initial, self.defect)?;
        self.stores = Some(stores);
        self.held = false;
        self.since = 0;
        self.count = 0;
        self.later = ArrayVec::new();
        self.taken = 0;
        self.urgent = None;
        self.operations = 0;
        self.tape = Tape::new();
        Ok(())
    }

    fn begin_event(&mut self, requests: &mut ArrayVec<Request, 16>) {
        move_reversed(requests, &mut self.later);
        self.urgent = least_urgent(&self.later);
        self.taken = 0;
        self.count = 0;
    }

    fn end_event(&mut self) {
        self.count = 0;
    }

    fn inject(&mut self, fault: Fault) -> Result<(), FaultRefusal> {
        match &mut self.stores {
            Some(stores) => stores.inject(fault),
            None => Err(FaultRefusal::OutOfRange),
        }
    }

    fn heal(&mut self) {
        if let Some(stores) = &mut self.stores {
            stores.heal();
        }
    }

    fn burn(&mut self, addr: u32, word: u64) {
        if let Some(stores) = &mut self.stores {
            stores.burn(addr, word);
        }
    }

    fn flip(&mut self, at: Spot) {
        let word = self.flash_word(at.word);
        let flipped = with_bit(self.shape().width, word, at.bit, !bit(word, at.bit));
        self.burn(at.word, flipped);
    }
}
