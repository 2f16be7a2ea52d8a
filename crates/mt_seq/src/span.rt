//! Many accesses of an algorithm in loops: a row of its steps, or an element of a march on all cells.

ghost use Rattle.std.specs.Prelude.{◌≡◌, ◌≢◌, ◌<◌, ◌≤◌, ◌+◌, ◌*◌, ◌^◌, [], ◌∷◌, map, length, true, false, if◌then◌else◌};
ghost use Rattle.std.specs.List.{flat_map};
ghost use Rattle.mt_fault.specs.Faulty.{is_odd};
ghost use Rattle.mt_plan.specs.Lists.{cells, galpat_base, ops_on, step, walk_base};
ghost use Rattle.mt_plan.specs.Rows.{cell_at};
ghost use Rattle.mt_seq.specs.Inner.Ground.{back_on, item_on, operation, other_pairs, other_reads, IsGround, IsTarget, MakesToo};
ghost use Rattle.mt_seq.specs.Makes.{Makes};

use crate::access::{Access, access_of, word_of};
use mt_march::{Element, Op};
use mt_plan::{Act, cell_of, reading, writing};
use mt_port::Port;
use mt_word::{Width, flip};

/// What the steps of a slice need to be accesses, beside the saved words.
#[derive(Clone, Copy, Debug, PartialEq, Eq)]
pub struct Ground {
    pub first: u32,
    pub n: u8,
    pub width: Width,
    pub background: u64,
    /// Whether the background word of a cell is its saved word.
    pub transparent: bool,
}

/// A base of the walk path or of Galpat: its cell, and whether the other cells hold complements.
#[derive(Clone, Copy, Debug, PartialEq, Eq)]
pub struct Base {
    pub cell: u8,
    pub flipped: bool,
}

impl Ground {
    /// The background word of a cell.
    #[inline(always)]
    fn back(self, saved: &[u64], cell: u8) -> u64
        requires { self.transparent ≡ true → cell < length saved.now }
        ensures { result ≡ back_on self saved.now cell }
    {
        if self.transparent {
            saved[cell as usize]
        } else {
            self.background
        }
    }
}

/// Makes an act on a cell, and answers whether it is no read that answered another word.
#[inline(always)]
fn make<P: Port>(port: &mut P, ground: Ground, saved: &[u64], cell: u8, act: Act) -> bool
    requires ground { IsGround (P.state port.old) ground saved.now }
    requires cell { cell < ground.n }
    requires room { (P.state port.old).count + 1 < 2 ^ 32 }
    ensures { Makes (item_on ground saved.now (step cell act) ∷ []) (P.state port.old) (P.state port.new)
        (P.tape port.old) (P.tape port.new) result }
{
    let back = ground.back(saved, cell);
    let word = word_of(ground.width, back, act);
    access_of(ground.first + u32::from(cell), word, act).check(port)
}

/// What is done with a cell, where even cells have one act and odd cells another.
#[inline(always)]
pub(crate) fn act_at(even: Act, odd: Act, cell: u8) -> Act
    ensures { result ≡ (if is_odd cell then odd else even) }
{
    if cell % 2 == 1 { odd } else { even }
}

/// Makes an act on each cell, from cell 0 up: one on even cells, and one on odd cells.
pub fn each_cell<P: Port>(port: &mut P, ground: Ground, saved: &[u64], even: Act, odd: Act) -> bool
    requires ground { IsGround (P.state port.old) ground saved.now }
    requires room { (P.state port.old).count + ground.n < 2 ^ 32 }
    ensures { Makes (map (item_on ground saved.now)
        (map (λ j. step j (if is_odd j then odd else even)) (cells ground.n)))
        (P.state port.old) (P.state port.new) (P.tape port.old) (P.tape port.new) result }
{
    let mut good = true;
    for cell in 0..ground.n {
        good &= make(port, ground, saved, cell, act_at(even, odd, cell));
    }
    good
}

/// A word of the RAM, as the operations of an element see it.
#[derive(Clone, Copy, Debug, Default, PartialEq, Eq)]
pub struct Target {
    pub addr: u32,
    /// The background word.
    pub plain: u64,
    /// Its complement.
    pub flipped: u64,
}

/// Makes an operation, and answers whether all was good and it is no read that answered another word.
#[inline(always)]
fn operate<P: Port>(port: &mut P, op: Op, target: Target, good: bool) -> bool
    requires target { IsTarget (P.state port.old) target }
    requires room { (P.state port.old).count + 1 < 2 ^ 32 }
    ensures { MakesToo (operation target op ∷ []) (P.state port.old) (P.state port.new) (P.tape port.old)
        (P.tape port.new) good result }
{
    let Target {
        addr,
        plain,
        flipped,
    } = target;
    match op {
        Op::R0 => good & Access::Check { addr, word: plain }.check(port),
        Op::R1 => {
            good & Access::Check {
                addr,
                word: flipped,
            }
            .check(port)
        }
        Op::W0 => good & Access::Store { addr, word: plain }.check(port),
        Op::W1 => {
            good & Access::Store {
                addr,
                word: flipped,
            }
            .check(port)
        }
    }
}

/// Makes operations on one word.
#[inline(always)]
pub(crate) fn operate_all<P: Port>(port: &mut P, ops: &[Op], target: Target, good: bool) -> bool
    requires target { IsTarget (P.state port.old) target }
    requires room { (P.state port.old).count + length ops.now < 2 ^ 32 }
    ensures { MakesToo (map (operation target) ops.now) (P.state port.old) (P.state port.new) (P.tape port.old)
        (P.tape port.new) good result }
{
    let mut all = good;
    for op in ops {
        all = operate(port, *op, target, all);
    }
    all
}

/// Makes an element on all cells, in its order. Each cell has one background word.
pub fn on_cells<P: Port>(port: &mut P, ground: Ground, element: &Element) -> bool
    requires ground { IsGround (P.state port.old) ground [] }
    requires opaque { ground.transparent ≡ false }
    requires small { ground.n ≤ 64 }
    requires room { (P.state port.old).count + ground.n * length element.now.ops.items < 2 ^ 32 }
    ensures { Makes (map (item_on ground [])
        (flat_map (λ place. ops_on element.now.ops.items (cell_at element.now.order ground.n place))
        (cells ground.n)))
        (P.state port.old) (P.state port.new) (P.tape port.old) (P.tape port.new) result }
{
    let plain = ground.background;
    let flipped = flip(ground.width, plain);
    let n = u32::from(ground.n);
    let order = element.order;
    let ops = element.ops.as_slice();
    let mut good = true;
    for place in 0..n {
        let addr = ground.first + u32::from(cell_of(order, n, place));
        let target = Target {
            addr,
            plain,
            flipped,
        };
        good = operate_all(port, ops, target, good);
    }
    good
}

/// Reads a cell, unless it is the base.
#[inline(always)]
fn read_other<P: Port>(port: &mut P, ground: Ground, saved: &[u64], base: Base, cell: u8) -> bool
    requires ground { IsGround (P.state port.old) ground saved.now }
    requires cell { cell < ground.n }
    requires room { cell ≢ base.cell → (P.state port.old).count + 1 < 2 ^ 32 }
    ensures made { Makes (map (item_on ground saved.now) (other_reads base.flipped base.cell (cell ∷ [])))
        (P.state port.old) (P.state port.new) (P.tape port.old) (P.tape port.new) result }
    ensures none { cell ≡ base.cell → (P.state port.new).count ≡ (P.state port.old).count }
    ensures one { cell ≢ base.cell → (P.state port.new).count ≡ (P.state port.old).count + 1 }
{
    if cell == base.cell {
        true
    } else {
        make(port, ground, saved, cell, reading(base.flipped))
    }
}

/// Reads each cell but the base.
#[inline(always)]
fn read_others<P: Port>(port: &mut P, ground: Ground, saved: &[u64], base: Base) -> bool
    requires ground { IsGround (P.state port.old) ground saved.now }
    requires base { base.cell < ground.n }
    requires room { (P.state port.old).count + ground.n < 2 ^ 32 }
    ensures made { Makes (map (item_on ground saved.now) (other_reads base.flipped base.cell (cells ground.n)))
        (P.state port.old) (P.state port.new) (P.tape port.old) (P.tape port.new) result }
    ensures count { (P.state port.new).count + 1 ≡ (P.state port.old).count + ground.n }
{
    let mut good = true;
    for cell in 0..ground.n {
        good &= read_other(port, ground, saved, base, cell);
    }
    good
}

/// Makes the walk path at a base.
pub fn walk_base<P: Port>(port: &mut P, ground: Ground, saved: &[u64], base: Base) -> bool
    requires ground { IsGround (P.state port.old) ground saved.now }
    requires base { base.cell < ground.n }
    requires room { (P.state port.old).count + (ground.n + 2) < 2 ^ 32 }
    ensures { Makes (map (item_on ground saved.now) (walk_base base.flipped (cells ground.n) base.cell))
        (P.state port.old) (P.state port.new) (P.tape port.old) (P.tape port.new) result }
{
    let written = make(port, ground, saved, base.cell, writing(!base.flipped));
    let others = read_others(port, ground, saved, base);
    let own = make(port, ground, saved, base.cell, reading(!base.flipped));
    let restored = make(port, ground, saved, base.cell, writing(base.flipped));
    written & others & (own & restored)
}

/// Reads a cell and then the base, unless the cell is the base.
#[inline(always)]
fn read_both<P: Port>(port: &mut P, ground: Ground, saved: &[u64], base: Base, cell: u8) -> bool
    requires ground { IsGround (P.state port.old) ground saved.now }
    requires base { base.cell < ground.n }
    requires cell { cell < ground.n }
    requires room { cell ≢ base.cell → (P.state port.old).count + 2 < 2 ^ 32 }
    ensures made { Makes (map (item_on ground saved.now) (other_pairs base.flipped base.cell (cell ∷ [])))
        (P.state port.old) (P.state port.new) (P.tape port.old) (P.tape port.new) result }
    ensures none { cell ≡ base.cell → (P.state port.new).count ≡ (P.state port.old).count }
    ensures two { cell ≢ base.cell → (P.state port.new).count ≡ (P.state port.old).count + 2 }
{
    if cell == base.cell {
        true
    } else {
        let other = make(port, ground, saved, cell, reading(base.flipped));
        let own = make(port, ground, saved, base.cell, reading(!base.flipped));
        other & own
    }
}

/// Reads each cell but the base, and the base behind it.
#[inline(always)]
fn read_pairs<P: Port>(port: &mut P, ground: Ground, saved: &[u64], base: Base) -> bool
    requires ground { IsGround (P.state port.old) ground saved.now }
    requires base { base.cell < ground.n }
    requires room { (P.state port.old).count + 2 * ground.n < 2 ^ 32 + 1 }
    ensures made { Makes (map (item_on ground saved.now) (other_pairs base.flipped base.cell (cells ground.n)))
        (P.state port.old) (P.state port.new) (P.tape port.old) (P.tape port.new) result }
    ensures count { (P.state port.new).count + 2 ≡ (P.state port.old).count + 2 * ground.n }
{
    let mut good = true;
    for cell in 0..ground.n {
        good &= read_both(port, ground, saved, base, cell);
    }
    good
}

/// Makes Galpat at a base.
pub fn galpat_base<P: Port>(port: &mut P, ground: Ground, saved: &[u64], base: Base) -> bool
    requires ground { IsGround (P.state port.old) ground saved.now }
    requires base { base.cell < ground.n }
    requires room { (P.state port.old).count + (2 * ground.n + 1) < 2 ^ 32 }
    ensures { Makes (map (item_on ground saved.now) (galpat_base base.flipped (cells ground.n) base.cell))
        (P.state port.old) (P.state port.new) (P.tape port.old) (P.tape port.new) result }
{
    let written = make(port, ground, saved, base.cell, writing(!base.flipped));
    let own = make(port, ground, saved, base.cell, reading(!base.flipped));
    let pairs = read_pairs(port, ground, saved, base);
    let restored = make(port, ground, saved, base.cell, writing(base.flipped));
    written & own & pairs & restored
}
