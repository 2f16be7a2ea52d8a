//! The accesses of a sequence on the cells that a fault names. Those on all other cells are known beforehand: they pass, and leave
//! the words.

ghost use Rattle.std.specs.Prelude.{All, ◌≡◌, ◌<◌, ◌≤◌, ◌+◌, ◌^◌, [], ◌∷◌, map, ◌++◌, ◌==◌, reverse, length, true, false, if◌then◌else◌};
ghost use Rattle.mt_word.specs.Word.{Fits};
ghost use Rattle.std.specs.List.{flat_map, list_any};
ghost use Rattle.mt_fault.specs.Faulty.{is_odd};
ghost use Rattle.mt_fault.specs.Items.{Look};
ghost use Rattle.mt_fault.specs.Projection.{cells_of_fault};
ghost use Rattle.mt_plan.specs.Lists.{cells, others};
ghost use Rattle.mt_seq.specs.Inner.Ground.{IsTarget};
ghost use Rattle.mt_seq.specs.Inner.Own.{at_base, doing, off_base, own_checkerboard, own_each, own_element, own_galpat_base, own_galpat_round, own_march, own_ops, own_pair, own_pairs, own_steps, own_stores, own_accesses, own_looks, own_walk_base, own_walk_round, read_cell, AreTargets};
ghost use Rattle.mt_seq.specs.Makes.{Makes};
ghost use Rattle.mt_seq.specs.Sequence.{sequence_hold, IsSoundJob, IsSoundSlice};
ghost use Rattle.mt_seq.specs.Stepping.{job_of};

use crate::access::{Access, access_of};
use crate::course::is_transparent;
use crate::sequence::{Frame, Slice};
use crate::span::{Base, Ground, Target, act_at, operate_all};
use arrayvec::ArrayVec;
use mt_march::{Element, Op, Order};
use mt_plan::{Act, Algorithm, Policy, reading, writing};
use mt_port::Port;
use mt_word::flip;

/// A cell that the fault names: its word before the algorithm begins, and what its acts write and expect.
#[derive(Clone, Copy, Debug, Default, PartialEq, Eq)]
pub struct Named {
    pub cell: u8,
    pub saved: u64,
    pub target: Target,
}

/// Makes an act on a word, and answers whether it is no read that answered another word.
#[inline(always)]
fn act_on<P: Port>(port: &mut P, target: Target, act: Act) -> bool
    requires target { IsTarget (P.state port.old) target }
    requires room { (P.state port.old).count + 1 < 2 ^ 32 }
    ensures { Makes (doing target act ∷ []) (P.state port.old) (P.state port.new) (P.tape port.old)
        (P.tape port.new) result }
{
    let word = if act.is_flipped() {
        target.flipped
    } else {
        target.plain
    };
    access_of(target.addr, word, act).check(port)
}

/// Makes an act on a word, if it is wanted.
#[inline(always)]
fn act_if<P: Port>(port: &mut P, wanted: bool, target: Target, act: Act) -> bool
    requires target { IsTarget (P.state port.old) target }
    requires room { (P.state port.old).count + length (if wanted then doing target act ∷ [] else []) < 2 ^ 32 }
    ensures { Makes (if wanted then doing target act ∷ [] else [])
        (P.state port.old) (P.state port.new) (P.tape port.old) (P.tape port.new) result }
{
    if wanted {
        act_on(port, target, act)
    } else {
        true
    }
}

/// Makes an act on each cell: one on even cells, and one on odd cells.
fn each<P: Port>(port: &mut P, named: &[Named], even: Act, odd: Act) -> bool
    requires targets { AreTargets (P.state port.old) named.now }
    requires room { (P.state port.old).count + length named.now < 2 ^ 32 }
    ensures { Makes (own_each (λ j. if is_odd j then odd else even) named.now)
        (P.state port.old) (P.state port.new) (P.tape port.old) (P.tape port.new) result }
{
    let mut good = true;
    for m in named {
        good &= act_on(port, m.target, act_at(even, odd, m.cell));
    }
    good
}

/// Makes operations on each cell.
fn operate_each<P: Port>(port: &mut P, ops: &[Op], named: &[Named]) -> bool
    requires targets { AreTargets (P.state port.old) named.now }
    requires room { (P.state port.old).count + length (own_ops ops.now named.now) < 2 ^ 32 }
    ensures { Makes (own_ops ops.now named.now)
        (P.state port.old) (P.state port.new) (P.tape port.old) (P.tape port.new) result }
{
    let mut good = true;
    for m in named {
        good = operate_all(port, ops, m.target, good);
    }
    good
}

/// Makes an element of a march. `falling` has the cells from the highest down.
fn make_element<P: Port>(
    port: &mut P,
    element: &Element,
    named: &[Named],
    falling: &[Named],
) -> bool
    requires falling { falling.now ≡ reverse named.now }
    requires targets { AreTargets (P.state port.old) named.now }
    requires room { (P.state port.old).count + length (own_element named.now element.now) < 2 ^ 32 }
    ensures { Makes (own_element named.now element.now)
        (P.state port.old) (P.state port.new) (P.tape port.old) (P.tape port.new) result }
{
    match element.order {
        Order::Down => operate_each(port, element.ops.as_slice(), falling),
        Order::Up | Order::Either => operate_each(port, element.ops.as_slice(), named),
    }
}

/// Makes the elements of a march.
fn make_march<P: Port>(
    port: &mut P,
    elements: &[Element],
    named: &[Named],
    falling: &[Named],
) -> bool
    requires falling { falling.now ≡ reverse named.now }
    requires targets { AreTargets (P.state port.old) named.now }
    requires room { (P.state port.old).count + length (own_march named.now elements.now) < 2 ^ 32 }
    ensures { Makes (own_march named.now elements.now)
        (P.state port.old) (P.state port.new) (P.tape port.old) (P.tape port.new) result }
{
    let mut good = true;
    for element in elements {
        good &= make_element(port, element, named, falling);
    }
    good
}

/// Makes checkerboard.
fn checkerboard<P: Port>(port: &mut P, named: &[Named]) -> bool
    requires targets { AreTargets (P.state port.old) named.now }
    requires room { (P.state port.old).count + length (own_checkerboard named.now) < 2 ^ 32 }
    ensures { Makes (own_checkerboard named.now)
        (P.state port.old) (P.state port.new) (P.tape port.old) (P.tape port.new) result }
{
    let first = each(port, named, Act::WritePlain, Act::WriteFlipped);
    let first_read = each(port, named, Act::ReadPlain, Act::ReadFlipped);
    let second = each(port, named, Act::WriteFlipped, Act::WritePlain);
    let second_read = each(port, named, Act::ReadFlipped, Act::ReadPlain);
    (first & first_read) & (second & second_read)
}

/// Makes an act on the base, if it is named.
fn on_base<P: Port>(port: &mut P, named: &[Named], base: u8, act: Act) -> bool
    requires targets { AreTargets (P.state port.old) named.now }
    requires room { (P.state port.old).count + length (own_each (λ j. act) (at_base base named.now)) < 2 ^ 32 }
    ensures { Makes (own_each (λ j. act) (at_base base named.now))
        (P.state port.old) (P.state port.new) (P.tape port.old) (P.tape port.new) result }
{
    let mut good = true;
    for m in named {
        good &= act_if(port, m.cell == base, m.target, act);
    }
    good
}

/// Makes an act on each cell but the base.
fn on_others<P: Port>(port: &mut P, named: &[Named], base: u8, act: Act) -> bool
    requires targets { AreTargets (P.state port.old) named.now }
    requires room { (P.state port.old).count + length (own_each (λ j. act) (off_base base named.now)) < 2 ^ 32 }
    ensures { Makes (own_each (λ j. act) (off_base base named.now))
        (P.state port.old) (P.state port.new) (P.tape port.old) (P.tape port.new) result }
{
    let mut good = true;
    for m in named {
        good &= act_if(port, m.cell != base, m.target, act);
    }
    good
}

/// Makes the walk path at a base.
fn walk_base<P: Port>(port: &mut P, named: &[Named], base: Base) -> bool
    requires targets { AreTargets (P.state port.old) named.now }
    requires room { (P.state port.old).count + length (own_walk_base base.flipped named.now base.cell) < 2 ^ 32 }
    ensures { Makes (own_walk_base base.flipped named.now base.cell)
        (P.state port.old) (P.state port.new) (P.tape port.old) (P.tape port.new) result }
{
    let written = on_base(port, named, base.cell, writing(!base.flipped));
    let others = on_others(port, named, base.cell, reading(base.flipped));
    let own = on_base(port, named, base.cell, reading(!base.flipped));
    let restored = on_base(port, named, base.cell, writing(base.flipped));
    (written & others) & (own & restored)
}

/// Makes a round of the walk path on n cells.
fn walk_round<P: Port>(port: &mut P, named: &[Named], n: u8, flipped: bool) -> bool
    requires targets { AreTargets (P.state port.old) named.now }
    requires room { (P.state port.old).count + length (own_walk_round flipped n named.now) < 2 ^ 32 }
    ensures { Makes (own_walk_round flipped n named.now)
        (P.state port.old) (P.state port.new) (P.tape port.old) (P.tape port.new) result }
{
    let filled = each(port, named, writing(flipped), writing(flipped));
    let mut good = true;
    for cell in 0..n {
        good &= walk_base(port, named, Base { cell, flipped });
    }
    filled & good
}

/// Reads a cell, if it is named, and the base after it, unless the cell is the base.
fn pair<P: Port>(port: &mut P, named: &[Named], base: Base, cell: u8) -> bool
    requires targets { AreTargets (P.state port.old) named.now }
    requires room { (P.state port.old).count
        + length (flat_map (own_pair base.flipped named.now base.cell) (others base.cell (cell ∷ []))) < 2 ^ 32 }
    ensures { Makes (flat_map (own_pair base.flipped named.now base.cell) (others base.cell (cell ∷ [])))
        (P.state port.old) (P.state port.new) (P.tape port.old) (P.tape port.new) result }
{
    if cell == base.cell {
        return true;
    }
    let other = on_base(port, named, cell, reading(base.flipped));
    let own = on_base(port, named, base.cell, reading(!base.flipped));
    other & own
}

/// Reads each cell but the base, if it is named, and the base after it.
fn all_pairs<P: Port>(port: &mut P, named: &[Named], n: u8, base: Base) -> bool
    requires targets { AreTargets (P.state port.old) named.now }
    requires room { (P.state port.old).count
        + length (flat_map (own_pair base.flipped named.now base.cell) (others base.cell (cells n))) < 2 ^ 32 }
    ensures { Makes (flat_map (own_pair base.flipped named.now base.cell) (others base.cell (cells n)))
        (P.state port.old) (P.state port.new) (P.tape port.old) (P.tape port.new) result }
{
    let mut good = true;
    for cell in 0..n {
        good &= pair(port, named, base, cell);
    }
    good
}

/// Whether a cell is named.
fn is_named(named: &[Named], cell: u8) -> bool
    ensures { result ≡ list_any (λ m. m.cell == cell) named.now }
{
    named.iter().any(|m| m.cell == cell)
}

/// The reads of Galpat at a base. If the base is not named, no read of it is made.
fn pairs<P: Port>(port: &mut P, named: &[Named], n: u8, base: Base) -> bool
    requires targets { AreTargets (P.state port.old) named.now }
    requires room { (P.state port.old).count + length (own_pairs base.flipped n named.now base.cell) < 2 ^ 32 }
    ensures { Makes (own_pairs base.flipped n named.now base.cell)
        (P.state port.old) (P.state port.new) (P.tape port.old) (P.tape port.new) result }
{
    if is_named(named, base.cell) {
        all_pairs(port, named, n, base)
    } else {
        on_others(port, named, base.cell, reading(base.flipped))
    }
}

/// Makes Galpat at a base.
fn galpat_base<P: Port>(port: &mut P, named: &[Named], n: u8, base: Base) -> bool
    requires targets { AreTargets (P.state port.old) named.now }
    requires room { (P.state port.old).count + length (own_galpat_base base.flipped n named.now base.cell) < 2 ^ 32 }
    ensures { Makes (own_galpat_base base.flipped n named.now base.cell)
        (P.state port.old) (P.state port.new) (P.tape port.old) (P.tape port.new) result }
{
    let written = on_base(port, named, base.cell, writing(!base.flipped));
    let own = on_base(port, named, base.cell, reading(!base.flipped));
    let pairs = pairs(port, named, n, base);
    let restored = on_base(port, named, base.cell, writing(base.flipped));
    ((written & own) & pairs) & restored
}

/// Makes a round of Galpat on n cells.
fn galpat_round<P: Port>(port: &mut P, named: &[Named], n: u8, flipped: bool) -> bool
    requires targets { AreTargets (P.state port.old) named.now }
    requires room { (P.state port.old).count + length (own_galpat_round flipped n named.now) < 2 ^ 32 }
    ensures { Makes (own_galpat_round flipped n named.now)
        (P.state port.old) (P.state port.new) (P.tape port.old) (P.tape port.new) result }
{
    let filled = each(port, named, writing(flipped), writing(flipped));
    let mut good = true;
    for cell in 0..n {
        good &= galpat_base(port, named, n, Base { cell, flipped });
    }
    filled & good
}

/// Makes the walk path on n cells.
fn walk_path<P: Port>(port: &mut P, named: &[Named], n: u8) -> bool
    requires targets { AreTargets (P.state port.old) named.now }
    requires room { (P.state port.old).count
        + length (own_walk_round false n named.now ++ own_walk_round true n named.now) < 2 ^ 32 }
    ensures { Makes (own_walk_round false n named.now ++ own_walk_round true n named.now)
        (P.state port.old) (P.state port.new) (P.tape port.old) (P.tape port.new) result }
{
    let first = walk_round(port, named, n, false);
    let second = walk_round(port, named, n, true);
    first & second
}

/// Makes Galpat on n cells.
fn galpat<P: Port>(port: &mut P, named: &[Named], n: u8) -> bool
    requires targets { AreTargets (P.state port.old) named.now }
    requires room { (P.state port.old).count
        + length (own_galpat_round false n named.now ++ own_galpat_round true n named.now) < 2 ^ 32 }
    ensures { Makes (own_galpat_round false n named.now ++ own_galpat_round true n named.now)
        (P.state port.old) (P.state port.new) (P.tape port.old) (P.tape port.new) result }
{
    let first = galpat_round(port, named, n, false);
    let second = galpat_round(port, named, n, true);
    first & second
}

/// Makes the algorithm's accesses on n cells. `falling` has the cells from the highest down.
pub(crate) fn make_steps<P: Port>(
    port: &mut P,
    alg: &Algorithm,
    n: u8,
    named: &[Named],
    falling: &[Named],
) -> bool
    requires falling { falling.now ≡ reverse named.now }
    requires targets { AreTargets (P.state port.old) named.now }
    requires room { (P.state port.old).count + length (own_steps alg.now n named.now) < 2 ^ 32 }
    ensures { Makes (own_steps alg.now n named.now)
        (P.state port.old) (P.state port.new) (P.tape port.old) (P.tape port.new) result }
{
    match alg {
        Algorithm::Checkerboard => checkerboard(port, named),
        Algorithm::March(text) => make_march(port, text.elements.as_slice(), named, falling),
        Algorithm::WalkPath => walk_path(port, named, n),
        Algorithm::Galpat => galpat(port, named, n),
        Algorithm::TransparentGalpat => galpat(port, named, n),
    }
}

/// Writes each saved word back.
pub(crate) fn restore_named<P: Port>(port: &mut P, named: &[Named])
    requires targets { AreTargets (P.state port.old) named.now }
    requires fit { All (λ m. Fits (P.state port.old).shape.width m.saved) named.now }
    requires room { (P.state port.old).count + length named.now < 2 ^ 32 }
    ensures { Makes (own_stores named.now)
        (P.state port.old) (P.state port.new) (P.tape port.old) (P.tape port.new) true }
{
    for m in named {
        let access = Access::Store {
            addr: m.target.addr,
            word: m.saved,
        };
        let _ = access.make(port);
    }
}

/// Reads a cell, and keeps what its acts need.
fn save_cell<P: Port>(port: &mut P, ground: Ground, cell: u8) -> Named
    requires held { (P.state port.old).held ≡ true }
    requires inside { ground.first + cell < (P.state port.old).shape.ram }
    requires width { ground.width ≡ (P.state port.old).shape.width }
    requires background { Fits ground.width ground.background }
    requires room { (P.state port.old).count + 1 < 2 ^ 32 }
    ensures makes { Makes (Look (ground.first + cell) ∷ [])
        (P.state port.old) (P.state port.new) (P.tape port.old) (P.tape port.new) true }
    ensures words { (P.state port.new).words ≡ (P.state port.old).words }
    ensures named { result ≡ read_cell ground (P.state port.old) cell }
    ensures target { IsTarget (P.state port.old) result.target }
    ensures fits { Fits (P.state port.old).shape.width result.saved }
{
    let addr = ground.first + u32::from(cell);
    let saved = port.read(addr);
    let plain = if ground.transparent {
        saved
    } else {
        ground.background
    };
    let flipped = flip(ground.width, plain);
    Named {
        cell,
        saved,
        target: Target {
            addr,
            plain,
            flipped,
        },
    }
}

/// Reads each cell that the fault names.
fn save_named<P: Port>(port: &mut P, ground: Ground, cells: &[u8]) -> ArrayVec<Named, 2>
    requires few { length cells.now ≤ 2 }
    requires held { (P.state port.old).held ≡ true }
    requires inside { All (λ cell. ground.first + cell < (P.state port.old).shape.ram) cells.now }
    requires width { ground.width ≡ (P.state port.old).shape.width }
    requires background { Fits ground.width ground.background }
    requires room { (P.state port.old).count + length cells.now < 2 ^ 32 }
    ensures makes { Makes (own_looks ground.first cells.now)
        (P.state port.old) (P.state port.new) (P.tape port.old) (P.tape port.new) true }
    ensures named { result.items ≡ map (read_cell ground (P.state port.old)) cells.now }
    ensures targets { AreTargets (P.state port.old) result.items }
    ensures fit { All (λ m. Fits (P.state port.old).shape.width m.saved) result.items }
{
    let mut named = ArrayVec::new();
    for cell in cells {
        named.push(save_cell(port, ground, *cell));
    }
    named
}

/// The same cells the other way round.
fn turned(named: &[Named]) -> ArrayVec<Named, 2>
    requires { length named.now ≤ 2 }
    ensures { result.items ≡ reverse named.now }
{
    let mut falling = ArrayVec::new();
    match named {
        [] => {}
        [only] => falling.push(*only),
        [low, high, ..] => {
            falling.push(*high);
            falling.push(*low);
        }
    }
    falling
}

/// All accesses of a sequence that keeps the words, on these cells alone, which are those that the fault names.
pub(crate) fn make_own<P: Port>(
    port: &mut P,
    alg: &Algorithm,
    frame: Frame,
    slice: Slice,
    cells: &[u8],
) -> bool
    requires held { (P.state port.old).held ≡ true }
    requires job { IsSoundJob (P.state port.old).shape.width (job_of alg.now frame) }
    requires slice { IsSoundSlice (P.state port.old).shape.ram slice }
    requires keeps { frame.policy ≡ Policy.NonDestructive }
    requires cells { cells.now ≡ cells_of_fault (P.state port.old).fault slice.first slice.n }
    requires few { length cells.now ≤ 2 }
    requires room { (P.state port.old).count + sequence_hold (job_of alg.now frame) slice.n < 2 ^ 32 }
    ensures { Makes (own_accesses (P.state port.old) (job_of alg.now frame) slice)
        (P.state port.old) (P.state port.new) (P.tape port.old) (P.tape port.new) result }
{
    let ground = Ground {
        first: slice.first,
        n: slice.n,
        width: port.shape().width,
        background: frame.background,
        transparent: is_transparent(alg),
    };
    let named = save_named(port, ground, cells);
    let falling = turned(named.as_slice());
    let good = make_steps(port, alg, slice.n, named.as_slice(), falling.as_slice());
    restore_named(port, named.as_slice());
    good
}
