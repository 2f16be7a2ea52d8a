//! What is known of an event while its deeds are looked at, one after the other.

use crate::deed_text::Listed;
use crate::place::{Blocks, Place, place_of};
use crate::step::{Attempt, Step, step_of};
use arrayvec::ArrayVec;
use mt_blocks::{FlsConfig, RamConfig};
use mt_board::Deed;
use mt_port::Module;
use mt_text::{Event, RamCall};

/// The most words of a slice.
const MOST_WORDS: usize = 64;

/// What a deed is in its event.
#[derive(Clone, Copy, Debug)]
pub enum Seen {
    /// Interrupts are held, for an attempt at this slice of one of these blocks.
    Hold {
        of: Blocks,
        place: Option<Place>,
        attempt: u32,
    },
    Release,
    /// A read, and the word that it was to answer, if the test expects one.
    Read {
        module: Module,
        access: Listed,
        expected: Option<u64>,
    },
    Write {
        access: Listed,
    },
    /// What a script line or a handler asked for.
    Asked(Event),
    /// An event begins or ends, or accesses are counted.
    Other,
}

/// What is known of the event under way.
#[derive(Drop)]
pub struct Sight<'a> {
    ram: &'a RamConfig,
    fls: &'a FlsConfig,
    // The parameter set that is selected.
    set: usize,
    // The event of the line under way.
    event: Event,
    // The slice of the latest hold of this event, and how many attempts at it were made.
    place: Option<Place>,
    attempt: u32,
    // What is known of the attempt that is made under this hold, and how many accesses came before it.
    made: Option<Attempt>,
    before: u32,
    // The test accesses of this event.
    count: u32,
    // The words that the test wrote under this hold, with their addresses.
    written: ArrayVec<(u32, u64), MOST_WORDS>,
    // A word of the flash whose copy is read next.
    original: Option<u64>,
}

// How many accesses are made up to the next release, if it is there and nothing else is done before it.
fn accesses_under_hold(deeds: &[Deed]) -> Option<u32> {
    let mut count: u32 = 0;
    for deed in deeds {
        match deed {
            Deed::Read { .. } | Deed::Write { .. } => count = count.saturating_add(1),
            Deed::Release => return Some(count),
            _ => return None,
        }
    }
    None
}

impl<'a> Sight<'a> {
    /// Nothing is seen yet.
    pub fn new(ram: &'a RamConfig, fls: &'a FlsConfig) -> Sight<'a> {
        Sight {
            ram,
            fls,
            set: 0,
            event: Event::Nothing,
            place: None,
            attempt: 0,
            made: None,
            before: 0,
            count: 0,
            written: ArrayVec::new(),
            original: None,
        }
    }

    /// A script line with this event is under way.
    pub fn begin(&mut self, event: Event) {
        self.event = event;
    }

    /// The number of the parameter set that is selected.
    pub fn set(&self) -> usize {
        self.set
    }

    /// How many test accesses the event has so far.
    pub fn count(&self) -> u32 {
        self.count
    }

    /// The event has ended.
    pub fn end(&mut self) {
        self.count = 0;
    }

    /// Keeps which parameter set is selected after a reply to the line.
    pub fn select(&mut self, reply: &[u8]) {
        if reply == b"ok".as_slice() {
            match self.event {
                Event::Ram(RamCall::Init) => self.set = 0,
                Event::Ram(RamCall::SelectAlgParams(set)) => self.set = set as usize,
                _ => {}
            }
        }
    }

    // The word that a read is to answer: the one that the test wrote there under this hold.
    fn expected(&self, addr: u32) -> Option<u64> {
        for (at, word) in self.written.as_slice() {
            if *at == addr {
                return Some(*word);
            }
        }
        None
    }

    // Keeps the word that the test wrote.
    fn keep(&mut self, addr: u32, word: u64) {
        self.written.retain(|kept| kept.0 != addr);
        if !self.written.is_full() {
            self.written.push((addr, word));
        }
    }

    // The step of the latest access, if it is one of a sequence of RamTst.
    fn step(&self) -> Option<Step> {
        let set = self.ram.sets.as_slice().get(self.set)?;
        let index = self.count.saturating_sub(self.before).saturating_sub(1);
        step_of(&set.alg, self.made?, index)
    }

    fn listed(&mut self, addr: u32, word: u64) -> Listed {
        self.count = self.count.saturating_add(1);
        Listed {
            count: self.count,
            addr,
            word,
            step: self.step(),
        }
    }

    // The attempt at a slice of RamTst whose deeds these are, if all of them are there.
    fn attempt_at(&self, place: Place, deeds: &[Deed]) -> Option<Attempt> {
        let set = self.ram.sets.as_slice().get(self.set)?;
        let block = set.blocks.as_slice().get(place.block as usize)?;
        Some(Attempt {
            first: place.first,
            words: place.last.saturating_sub(place.first).saturating_add(1),
            policy: block.policy,
            accesses: accesses_under_hold(deeds)?,
        })
    }

    // The slice of an address, and the blocks that it is of.
    fn place_at(&self, addr: u32) -> (Blocks, Option<Place>) {
        let fls = self.fls;
        match self.event {
            Event::TickFls => (
                Blocks::Background,
                place_of(fls.bgnd.as_slice(), fls.atomic, addr),
            ),
            Event::Fls(_) => (
                Blocks::Foreground,
                place_of(fls.fgnd.as_slice(), fls.atomic, addr),
            ),
            _ => match self.ram.sets.as_slice().get(self.set) {
                Some(set) => (
                    Blocks::Ram,
                    place_of(set.blocks.as_slice(), set.atomic, addr),
                ),
                None => (Blocks::Ram, None),
            },
        }
    }

    // A hold is for the slice in which the first access under it lies.
    fn hold(&mut self, later: &[Deed]) -> Seen {
        self.written.clear();
        self.original = None;
        let (of, place) = match later.first() {
            Some(
                Deed::Read { addr, .. } | Deed::Write { addr, .. } | Deed::FlashRead { addr, .. },
            ) => self.place_at(*addr),
            _ => (Blocks::Ram, None),
        };
        self.attempt = if place == self.place {
            self.attempt.saturating_add(1)
        } else {
            1
        };
        self.place = place;
        self.before = self.count;
        self.made = match (of, place) {
            (Blocks::Ram, Some(place)) => self.attempt_at(place, later),
            _ => None,
        };
        Seen::Hold {
            of,
            place,
            attempt: self.attempt,
        }
    }

    // A word of the flash is read before its copy, which is to be equal.
    fn flash_read(&mut self, addr: u32, word: u64) -> Seen {
        let expected = self.original;
        self.original = match expected {
            None => Some(word),
            Some(_) => None,
        };
        Seen::Read {
            module: Module::FlsTst,
            access: self.listed(addr, word),
            expected,
        }
    }

    fn read(&mut self, addr: u32, word: u64) -> Seen {
        let expected = self.expected(addr);
        Seen::Read {
            module: Module::RamTst,
            access: self.listed(addr, word),
            expected,
        }
    }

    fn write(&mut self, addr: u32, word: u64) -> Seen {
        self.keep(addr, word);
        Seen::Write {
            access: self.listed(addr, word),
        }
    }

    /// What a deed is, with the deeds after it.
    pub fn see(&mut self, deed: Deed, later: &[Deed]) -> Seen {
        match deed {
            Deed::PowerUp { .. } | Deed::EndEvent => Seen::Other,
            Deed::BeginEvent { .. } => {
                self.count = 0;
                self.place = None;
                Seen::Other
            }
            Deed::CountUpTo { count } => {
                self.count = count;
                Seen::Other
            }
            Deed::Hold => self.hold(later),
            Deed::Release => Seen::Release,
            Deed::Read { addr, word } => self.read(addr, word),
            Deed::Write { addr, word } => self.write(addr, word),
            Deed::FlashRead { addr, word } => self.flash_read(addr, word),
            Deed::App { op, .. } => Seen::Asked(Event::App(op)),
            Deed::Inject { fault } | Deed::Refuse { fault, .. } => Seen::Asked(Event::Inject(
                fault,
            )),
            Deed::Heal => Seen::Asked(Event::Heal),
            Deed::Burn { addr, word } => Seen::Asked(Event::Burn { addr, word }),
            Deed::Flip { at } => Seen::Asked(Event::Flip(at)),
        }
    }
}
