//! The memory as it runs: one step forward at each access.

ghost use Rattle.std.specs.Prelude.{◌≡◌, ◌<◌, ◌≤◌, ◌∷◌, [], ℕ, length, IfOk, OnOk, OnErr, Some, None, replicate};
ghost use Rattle.mt_word.specs.Word.{Fits};
ghost use Rattle.mt_fault.specs.History.{Read, Write};
ghost use Rattle.mt_fault.specs.Faulty.{answer, words_after};
ghost use Rattle.mt_fault.specs.Memory.{Memory, IsSound, after_access, first_words, injection};
ghost use Rattle.mt_fault.specs.Projection.{cells_of_fault};

use crate::access::{read_word, settle, write_word};
use crate::fault::{Fault, FaultRefusal};
use crate::placement::{cells_of_fault, is_in_range, is_same_word};
use arrayvec::ArrayVec;
use mt_word::{NoMemory, Width, Words};
use std::alloc::Global;
use std::marker::Model;

/// Words of one width, with at most one fault. Contracts see it as a `Memory`: the width, the fault, the stored words.
///
/// Each access takes the time of one or two words, whatever the size. Of the fault only `cells_of_fault` says anything: which words
/// it names.
#[derive(Drop)]
pub struct Cells {
    words: Words,
    fault: Option<Fault>,
}

impl Model for Cells {
    ghost use Rattle.mt_fault.specs.Memory.{Memory, IsSound};

    ghost Value = { Memory };

    ghost view = { λ c. record { width = c.words.width; fault = c.fault; words = c.words.words } };

    ghost invariant = { λ c. IsSound (record { width = c.words.width; fault = c.fault; words = c.words.words }) };
}

impl Cells {
    /// A memory of `size` words, from 1 to 65,536, without a fault. Every word is `initial`.
    pub fn new(alloc: Global, width: Width, size: u32, initial: u64) -> Result<Cells, NoMemory>
        requires some { 1 ≤ size }
        requires limit { size ≤ 65536 }
        requires initial { Fits width initial }
        ensures words { IfOk result (λ m. m ≡ record { width = width; fault = None; words = replicate size initial }) }
        ensures sound { IfOk result IsSound }
    {
        let words = Words::filled(alloc, width, size, initial)?;
        Ok(Cells { words, fault: None })
    }

    /// The width, which no call changes. What is known of every memory stands here as a clause, for callers' proofs.
    pub fn width(&self) -> Width
        ensures width { result ≡ self.now.width }
        ensures sound { IsSound self.now }
    {
        self.words.width()
    }

    /// Reads a word, under the fault that is there. It leaves every stored word.
    pub fn read(&mut self, addr: u32) -> u64
        requires { addr < length self.old.words }
        ensures answer { result ≡ answer self.old.fault self.old.words [] addr }
        ensures after { self.new ≡ after_access self.old (Read addr) }
        ensures unchanged { self.new ≡ self.old }
        ensures fits { Fits self.old.width result }
        ensures sound { IsSound self.new }
    {
        read_word(&self.words, &self.fault, addr)
    }

    /// Writes a word, under the fault that is there.
    #[tactic(auto, using(crate::proofs::Steps::size_after))]
    pub fn write(&mut self, addr: u32, word: u64)
        requires addr { addr < length self.old.words }
        requires word { Fits self.old.width word }
        ensures after { self.new ≡ after_access self.old (Write addr word) }
        ensures size { length self.new.words ≡ length self.old.words }
        ensures sound { IsSound self.new }
    {
        write_word(&mut self.words, &self.fault, addr, word);
    }

    /// The cells of the n words from `first` on that the fault names, counted from 0, from the lowest up; none if no fault is there.
    pub fn cells_of_fault(&self, first: u32, n: u8) -> ArrayVec<u8, 2>
        ensures { result.items ≡ cells_of_fault self.now.fault first n }
    {
        match self.fault {
            Some(fault) => cells_of_fault(fault, first, n),
            None => ArrayVec::new(),
        }
    }

    /// Puts a fault there, where it is in range, its two addresses differ and none is there; the first of these that
    /// fails is the refusal, and then nothing has changed.
    ///
    /// A stuck-at fault sets its victim at once, and a state coupling fault where its aggressor holds; such a bit
    /// stays when the fault is healed.
    #[tactic(auto, using(crate::proofs::Steps::size_first))]
    pub fn inject(&mut self, fault: Fault) -> Result<(), FaultRefusal>
        ensures answer { result ≡ injection self.old fault }
        ensures ok { OnOk result (self.new ≡ record self.old { fault = Some fault; words = first_words fault self.old.words }) }
        ensures err { OnErr result (self.new ≡ self.old) }
        ensures size { length self.new.words ≡ length self.old.words }
        ensures sound { IsSound self.new }
    {
        if !is_in_range(self.words.width(), self.words.len(), fault) {
            return Err(FaultRefusal::OutOfRange);
        }
        if is_same_word(fault) {
            return Err(FaultRefusal::SameWord);
        }
        if self.fault.is_some() {
            return Err(FaultRefusal::Present);
        }
        settle(&mut self.words, fault);
        self.fault = Some(fault);
        Ok(())
    }

    /// Takes the fault away, if one is there. Stored words stay, also the bits that the fault has forced.
    pub fn heal(&mut self)
        ensures healed { self.new ≡ record self.old { fault = None } }
        ensures sound { IsSound self.new }
    {
        self.fault = None;
    }
}
