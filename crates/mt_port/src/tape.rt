//! The tape of a board.

ghost use Rattle.std.specs.Prelude.{◌≡◌, Some, None, [], is_some, true};
ghost use Rattle.std.specs.Option.{option_copied};
ghost use Rattle.mt_port.specs.Tape.{is_over, recorded};

use crate::board::Touch;
use arrayvec::ArrayVec;
use std::marker::Model;

/// A list of at most 256 test accesses, or none once there were more.
#[derive(Drop)]
pub struct Tape {
    touches: ArrayVec<Touch, 256>,
    told: bool,
}

impl Model for Tape {
    ghost use Rattle.std.specs.Prelude.{List};
    ghost use Rattle.std.specs.declared.option.Option.{Option};
    ghost use Rattle.mt_port.specs.declared.board.Touch.{Touch};

    ghost Value = { Option (List Touch) };

    ghost use Rattle.std.specs.Prelude.{Some, None, if◌then◌else◌};

    ghost view = { λ t. if t.told then Some t.touches.items else None };
}

impl Tape {
    /// An empty tape.
    pub fn new() -> Tape
        ensures { result ≡ Some [] }
    {
        Tape {
            touches: ArrayVec::new(),
            told: true,
        }
    }

    /// Appends an access. A list of 256 becomes none, and none stays none.
    #[inline(always)]
    pub fn add(&mut self, touch: Touch)
        ensures { self.new ≡ recorded 256 self.old touch }
    {
        if self.told {
            self.append(touch);
        }
    }

    /// Appends a read.
    #[inline(always)]
    pub fn add_read(&mut self, addr: u32)
        ensures { self.new ≡ recorded 256 self.old (Touch.Read addr) }
    {
        if self.told {
            self.append_read(addr);
        }
    }

    /// Appends a write.
    #[inline(always)]
    pub fn add_write(&mut self, addr: u32, word: u64)
        ensures { self.new ≡ recorded 256 self.old (Touch.Write addr word) }
    {
        if self.told {
            self.append_write(addr, word);
        }
    }

    // The calls below stand apart, so that an access costs one test where the tape tells no more.

    #[cold]
    #[inline(never)]
    fn append_read(&mut self, addr: u32)
        requires { is_some self.old ≡ true }
        ensures { self.new ≡ recorded 256 self.old (Touch.Read addr) }
    {
        self.append(Touch::Read { addr });
    }

    #[cold]
    #[inline(never)]
    fn append_write(&mut self, addr: u32, word: u64)
        requires { is_some self.old ≡ true }
        ensures { self.new ≡ recorded 256 self.old (Touch.Write addr word) }
    {
        self.append(Touch::Write { addr, word });
    }

    #[cold]
    #[inline(never)]
    fn append(&mut self, touch: Touch)
        requires { is_some self.old ≡ true }
        ensures { self.new ≡ recorded 256 self.old touch }
    {
        if self.touches.is_full() {
            self.told = false;
        } else {
            self.touches.push(touch);
        }
    }

    /// Whether the list is none after so many more accesses.
    pub fn is_over_after(&self, count: u32) -> bool
        ensures { result ≡ is_over 256 self.now count }
    {
        !self.told || self.touches.len() as u64 + u64::from(count) > 256
    }

    /// Tells no access from now on.
    pub fn end(&mut self)
        ensures { self.new ≡ None }
    {
        self.told = false;
    }

    /// The accesses, where they are told.
    pub fn items(&self) -> Option<&[Touch]>
        ensures { option_copied result ≡ self.now }
    {
        if self.told { Some(&self.touches) } else { None }
    }
}
