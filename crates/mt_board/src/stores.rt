//! The words of a board that has been powered up.

ghost use Rattle.std.specs.Prelude.{◌≡◌, ◌<◌, ◌≤◌, length, replicate, slice_index, slice_set, All, IfOk, OnOk, OnErr, None};
ghost use Rattle.mt_port.specs.Board.{IsWithinLimits, fitting, begun_words};
ghost use Rattle.mt_word.specs.Word.{Fits};
ghost use Rattle.mt_fault.specs.Memory.{IsSound, after_access, injection};
ghost use Rattle.mt_fault.specs.Projection.{cells_of_fault};
ghost use Rattle.mt_fault.proofs.SoundLemmas.{IsSound-prop};

use arrayvec::ArrayVec;
use mt_fault::{Cells, Fault, FaultRefusal};
use mt_port::Shape;
use mt_word::{NoMemory, Words, flip};
use std::alloc::Global;

/// The RAM with its fault, and the flash.
#[derive(Drop)]
pub struct Stores {
    cells: Cells,
    ram: u32,
    flash: Words,
    flash_len: u32,
    ghost sized: { length cells.words ≡ ram },
    ghost limit: { ram ≤ 65536 },
    ghost sound: { IsSound cells } by { IsSound-prop cells },
    ghost flash_sized: { length flash.words ≡ flash_len },
    ghost flash_limit: { flash_len ≤ 65536 },
    ghost flash_width: { flash.width ≡ cells.width },
    ghost flash_fit: { All (λ w. Fits cells.width w) flash.words },
}

// The RAM with a defect as its fault. A defect that does not fit counts as none.
fn cells_with(
    alloc: Global,
    shape: Shape,
    initial: u64,
    defect: Option<Fault>,
) -> Result<Cells, NoMemory>
    requires sizes { IsWithinLimits shape }
    requires fits { Fits shape.width initial }
    ensures width { IfOk result (λ c. c.width ≡ shape.width) }
    ensures fault { IfOk result (λ c. c.fault ≡ fitting shape defect) }
    ensures words { IfOk result (λ c. c.words ≡ begun_words (fitting shape defect) (replicate shape.ram initial)) }
    ensures size { IfOk result (λ c. length c.words ≡ shape.ram) }
    ensures sound { IfOk result IsSound }
{
    let mut cells = Cells::new(alloc, shape.width, shape.ram, initial)?;
    if let Some(fault) = defect {
        let _ = cells.inject(fault);
    }
    Ok(cells)
}

impl Stores {
    ghost use Rattle.std.specs.Prelude.{[], ◌-◌, ◌^◌, Some};
    ghost use Rattle.std.specs.declared.option.Option.{Option};
    ghost use Rattle.mt_word.specs.Word.{width_bits};
    ghost use Rattle.mt_fault.specs.History.{Read, Write};
    ghost use Rattle.mt_fault.specs.Faulty.{answer};
    ghost use Rattle.mt_fault.specs.Memory.{first_words};
    ghost use Rattle.mt_board.specs.Stores.{shape_of, SameFlash};

    /// The words that a power-up makes, with the defect as their fault where it fits.
    pub fn new(
        alloc: Global,
        shape: Shape,
        initial: u64,
        defect: Option<Fault>,
    ) -> Result<Stores, NoMemory>
        requires sizes { IsWithinLimits shape }
        requires fits { Fits shape.width initial }
        ensures shape { IfOk result (λ s. shape_of (Some s) ≡ shape) }
        ensures fault { IfOk result (λ s. s.cells.fault ≡ fitting shape defect) }
        ensures words { IfOk result
            (λ s. s.cells.words ≡ begun_words (fitting shape defect) (replicate shape.ram initial)) }
        ensures flash { IfOk result (λ s. s.flash.words ≡ replicate shape.flash (2 ^ width_bits shape.width - 1)) }
    {
        let cells = cells_with(alloc, shape, initial, defect)?;
        let flash = Words::filled(alloc, shape.width, shape.flash, flip(shape.width, 0))?;
        Ok(Stores {
            cells,
            ram: shape.ram,
            flash,
            flash_len: shape.flash,
        })
    }

    /// The shape of the power-up.
    pub fn shape(&self) -> Shape
        ensures { result ≡ shape_of (Some self.now) }
    {
        Shape {
            width: self.cells.width(),
            ram: self.ram,
            flash: self.flash_len,
        }
    }

    /// One read of a RAM word.
    pub fn read(&mut self, addr: u32) -> u64
        requires { addr < self.old.ram }
        ensures answer { result ≡ answer self.old.cells.fault self.old.cells.words [] addr }
        ensures fits { Fits self.old.cells.width result }
        ensures cells { self.new.cells ≡ after_access self.old.cells (Read addr) }
        ensures flash { SameFlash self.old self.new }
    {
        self.cells.read(addr)
    }

    /// One write of a RAM word.
    pub fn write(&mut self, addr: u32, word: u64)
        requires addr { addr < self.old.ram }
        requires word { Fits self.old.cells.width word }
        ensures cells { self.new.cells ≡ after_access self.old.cells (Write addr word) }
        ensures flash { SameFlash self.old self.new }
    {
        self.cells.write(addr, word);
    }

    /// The cells of the n words from `first` on that the fault names, from the lowest up; none if no fault is there.
    pub fn cells_of_fault(&self, first: u32, n: u8) -> ArrayVec<u8, 2>
        ensures { result.items ≡ cells_of_fault self.now.cells.fault first n }
    {
        self.cells.cells_of_fault(first, n)
    }

    /// A flash word.
    pub fn flash_word(&self, addr: u32) -> u64
        requires { addr < length self.now.flash.words }
        ensures word { result ≡ slice_index self.now.flash.words addr }
        ensures fits { Fits self.now.cells.width result }
    {
        self.flash.get(addr)
    }

    /// Sets a flash word.
    pub fn burn(&mut self, addr: u32, word: u64)
        requires addr { addr < length self.old.flash.words }
        requires word { Fits self.old.cells.width word }
        ensures cells { self.new.cells ≡ self.old.cells }
        ensures ram { self.new.ram ≡ self.old.ram }
        ensures size { self.new.flash_len ≡ self.old.flash_len }
        ensures flash { self.new.flash.words ≡ slice_set self.old.flash.words addr word }
    {
        self.flash.set(addr, word);
    }

    /// Puts a fault into the RAM, or says why not.
    pub fn inject(&mut self, fault: Fault) -> Result<(), FaultRefusal>
        ensures answer { result ≡ injection self.old.cells fault }
        ensures ok { OnOk result
            (self.new.cells
            ≡ record self.old.cells { fault = Some fault; words = first_words fault self.old.cells.words }) }
        ensures err { OnErr result (self.new.cells ≡ self.old.cells) }
        ensures flash { SameFlash self.old self.new }
    {
        self.cells.inject(fault)
    }

    /// Takes the fault away.
    pub fn heal(&mut self)
        ensures cells { self.new.cells ≡ record self.old.cells { fault = None } }
        ensures flash { SameFlash self.old self.new }
    {
        self.cells.heal();
    }
}
