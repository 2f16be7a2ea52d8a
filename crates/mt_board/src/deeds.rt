//! What was done on a board.

ghost use Rattle.std.specs.Prelude.{◌≡◌, ◌<◌, ◌≤◌, ◌^◌, [], ◌∷◌, IfOk, vec_len, vec_capacity};

use mt_fault::{Fault, FaultRefusal, Spot};
use mt_port::{Answer, AppOp, Shape};
use mt_word::NoMemory;
use std::alloc::Global;

/// Something that was done on a board, and what it answered.
#[derive(Clone, Copy, Debug, PartialEq, Eq)]
pub enum Deed {
    /// A memory of this shape was made.
    PowerUp { shape: Shape, initial: u64 },
    /// An event began, with so many requests.
    BeginEvent { requests: u8 },
    /// An event ended.
    EndEvent,
    /// Interrupts were held.
    Hold,
    /// Interrupts were let come again.
    Release,
    /// A test read, and the word that it answered.
    Read { addr: u32, word: u64 },
    /// A test write.
    Write { addr: u32, word: u64 },
    /// A test read of the flash, and the word that it answered.
    FlashRead { addr: u32, word: u64 },
    /// Accesses were counted up to this count, and not made.
    CountUpTo { count: u32 },
    /// An operation of the application, and its answer.
    App { op: AppOp, answer: Answer },
    /// A fault was put in.
    Inject { fault: Fault },
    /// A fault was refused.
    Refuse { fault: Fault, refusal: FaultRefusal },
    /// The fault was taken away.
    Heal,
    /// A flash word was set.
    Burn { addr: u32, word: u64 },
    /// A bit of a flash word was flipped.
    Flip { at: Spot },
}

/// The first so many deeds, in order, and how many more there were. Its room is taken when it is made; nothing is
/// allocated after that. The number of further deeds does not wrap: it stays at its greatest value.
#[derive(Drop)]
pub struct Deeds {
    items: Vec<Deed>,
    room: usize,
    left_out: u64,
    ghost within: { vec_len items ≤ room },
    ghost reserved: { room ≤ vec_capacity items },
    ghost full: { 0 < left_out → vec_len items ≡ room },
    ghost counted: { left_out < 2 ^ 64 },
}

impl Deeds {
    ghost use Rattle.mt_board.specs.Watched.{account, account_of, Adds};

    /// No deeds, with room for so many.
    pub fn new(alloc: Global, room: usize) -> Result<Deeds, NoMemory>
        ensures { IfOk result (λ deeds. account_of deeds ≡ account room []) }
    {
        match Vec::with_capacity(alloc, room) {
            Ok(items) => Ok(Deeds {
                items,
                room,
                left_out: 0,
            }),
            Err(_) => Err(NoMemory),
        }
    }

    /// Appends a deed if there is room, and counts it as left out if not.
    pub fn add(&mut self, deed: Deed)
        ensures { Adds (account_of self.old) (account_of self.new) deed }
    {
        if self.items.len() == self.room {
            self.left_out = self.left_out.saturating_add(1);
            return;
        }
        match self.items.push(deed) {
            Ok(()) => {}
            // The room is reserved.
            Err(_) => unreachable!(),
        }
    }

    /// Forgets all deeds, and begins anew with this one.
    pub fn begin(&mut self, deed: Deed)
        ensures { account_of self.new ≡ account (account_of self.old).room (deed ∷ []) }
    {
        self.items.clear();
        self.left_out = 0;
        self.add(deed);
    }

    /// The deeds that there was room for, in order.
    pub fn items(&self) -> &[Deed]
        ensures { result.now ≡ (account_of self.now).items }
    {
        &self.items
    }

    /// How many more there were; 2^64 - 1 stands for all greater numbers too.
    pub fn left_out(&self) -> u64
        ensures { result ≡ (account_of self.now).left_out }
    {
        self.left_out
    }
}
