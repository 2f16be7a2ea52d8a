//! Events and application operations.

ghost use Rattle.std.specs.Prelude.{◌==◌, if◌then◌else◌, codes, true, false};
ghost use Rattle.mt_text.specs.Values.{Addr, FlashAddr, OtherAddr, Data, Bit, RamSpot, OtherSpot, FlashSpot};
ghost use Rattle.mt_text.specs.Forms.{value, spot, done, none, row};
ghost use Rattle.mt_text.specs.Reader.{Reads, ReadsFrom};
ghost use Rattle.mt_text.specs.Lines.{app_op, fault, event, direction, tick};
ghost use Rattle.mt_fault.specs.declared.fault.Fault.TheVariants.{StuckAt, CannotRise, CannotFall, Invert, Force, State, NoCell, Also, Instead};

use crate::call::{fls_call, ram_call};
use crate::cursor::Cursor;
use crate::line::{Event, LineKind, LineRefusal};
use crate::token::Token;
use crate::value::{
    BitPlace, DataPlace, DirectionPlace, NumberPlace, SpotPlace, is, refused, value,
};
use mt_fault::{Fault, Spot};
use mt_port::{AppOp, Shape};

/// Reads an application operation.
#[tactic(auto, unfolding(crate::specs::Reader::read, crate::specs::Lines::app_op))]
pub fn app_op(word: &Token<'_>, shape: Shape, cursor: &mut Cursor<'_>) -> Result<AppOp, LineRefusal>
    ensures { ReadsFrom shape app_op word.now cursor.old cursor.new result }
{
    if is(word.bytes, b"r") {
        let addr = value(NumberPlace::Ram, shape, cursor)?;
        Ok(AppOp::Read { addr })
    } else if is(word.bytes, b"w") {
        let addr = value(NumberPlace::Ram, shape, cursor)?;
        let word = value(DataPlace, shape, cursor)?;
        Ok(AppOp::Write { addr, word })
    } else if is(word.bytes, b"add") {
        let addr = value(NumberPlace::Ram, shape, cursor)?;
        let word = value(DataPlace, shape, cursor)?;
        Ok(AppOp::Add { addr, word })
    } else if is(word.bytes, b"copy") {
        let src = value(NumberPlace::Ram, shape, cursor)?;
        let dst = value(NumberPlace::Ram, shape, cursor)?;
        Ok(AppOp::Copy { src, dst })
    } else if is(word.bytes, b"f") {
        let addr = value(NumberPlace::Flash, shape, cursor)?;
        Ok(AppOp::Flash { addr })
    } else {
        refused(LineKind::Spelling, word.place)
    }
}

/// Reads the spots of an aggressor and of its victim.
#[tactic(auto, unfolding(crate::specs::Reader::read))]
fn coupled(shape: Shape, cursor: &mut Cursor<'_>) -> Result<(Spot, Spot), LineRefusal>
    ensures { Reads shape (spot RamSpot (λ a. spot (OtherSpot a.word) (λ v. done (a, v))))
        cursor.old cursor.new result }
{
    let agg = value(SpotPlace::Ram, shape, cursor)?;
    let vic = value(SpotPlace::OtherRam(agg.word), shape, cursor)?;
    Ok((agg, vic))
}

/// Reads what follows `sa`.
#[tactic(auto, unfolding(crate::specs::Reader::read))]
fn stuck_at(shape: Shape, cursor: &mut Cursor<'_>) -> Result<Fault, LineRefusal>
    ensures { Reads shape (spot RamSpot (λ v. value Bit (λ b. done (StuckAt v (b == 1)))))
        cursor.old cursor.new result }
{
    let vic = value(SpotPlace::Ram, shape, cursor)?;
    let held = value(BitPlace, shape, cursor)?;
    Ok(Fault::StuckAt { vic, value: held })
}

/// Reads what follows `tf-up` or `tf-down`.
#[tactic(auto, unfolding(crate::specs::Reader::read))]
fn transition(up: bool, shape: Shape, cursor: &mut Cursor<'_>) -> Result<Fault, LineRefusal>
    ensures { Reads shape (spot RamSpot (λ v. done (if up then CannotRise v else CannotFall v)))
        cursor.old cursor.new result }
{
    let vic = value(SpotPlace::Ram, shape, cursor)?;
    Ok(if up {
        Fault::CannotRise { vic }
    } else {
        Fault::CannotFall { vic }
    })
}

/// Reads what follows `cfin`.
#[tactic(auto, unfolding(crate::specs::Reader::read))]
fn invert(shape: Shape, cursor: &mut Cursor<'_>) -> Result<Fault, LineRefusal>
    ensures { Reads shape (direction (λ up. spot RamSpot (λ a. spot (OtherSpot a.word) (λ v. done (Invert a up v)))))
        cursor.old cursor.new result }
{
    let rise = value(DirectionPlace, shape, cursor)?;
    let (agg, vic) = coupled(shape, cursor)?;
    Ok(Fault::Invert { agg, rise, vic })
}

/// Reads what follows `cfid`.
#[tactic(auto, unfolding(crate::specs::Reader::read))]
fn force(shape: Shape, cursor: &mut Cursor<'_>) -> Result<Fault, LineRefusal>
    ensures { Reads shape (direction (λ up. spot RamSpot (λ a. spot (OtherSpot a.word)
        (λ v. value Bit (λ b. done (Force a up v (b == 1))))))) cursor.old cursor.new result }
{
    let rise = value(DirectionPlace, shape, cursor)?;
    let (agg, vic) = coupled(shape, cursor)?;
    let held = value(BitPlace, shape, cursor)?;
    Ok(Fault::Force {
        agg,
        rise,
        vic,
        value: held,
    })
}

/// Reads what follows `cfst`.
#[tactic(auto, unfolding(crate::specs::Reader::read))]
fn state(shape: Shape, cursor: &mut Cursor<'_>) -> Result<Fault, LineRefusal>
    ensures { Reads shape (value Bit (λ h. spot RamSpot (λ a. spot (OtherSpot a.word)
        (λ v. value Bit (λ b. done (State a (h == 1) v (b == 1))))))) cursor.old cursor.new result }
{
    let holds = value(BitPlace, shape, cursor)?;
    let (agg, vic) = coupled(shape, cursor)?;
    let held = value(BitPlace, shape, cursor)?;
    Ok(Fault::State {
        agg,
        holds,
        vic,
        value: held,
    })
}

/// Reads what follows `af-none`.
#[tactic(auto, unfolding(crate::specs::Reader::read))]
fn no_cell(shape: Shape, cursor: &mut Cursor<'_>) -> Result<Fault, LineRefusal>
    ensures { Reads shape (value Addr (λ a. value Data (λ x. done (NoCell a x)))) cursor.old cursor.new result }
{
    let addr = value(NumberPlace::Ram, shape, cursor)?;
    let seen = value(DataPlace, shape, cursor)?;
    Ok(Fault::NoCell { addr, seen })
}

/// Reads what follows `af-also`.
#[tactic(auto, unfolding(crate::specs::Reader::read))]
fn also(shape: Shape, cursor: &mut Cursor<'_>) -> Result<Fault, LineRefusal>
    ensures { Reads shape (value Addr (λ a. value (OtherAddr a) (λ b. row (codes "and") (done (Also a b true))
        (row (codes "or") (done (Also a b false)) none)))) cursor.old cursor.new result }
{
    let addr = value(NumberPlace::Ram, shape, cursor)?;
    let other = value(NumberPlace::OtherRam(addr), shape, cursor)?;
    let word = cursor.next()?;
    if is(word.bytes, b"and") {
        Ok(Fault::Also {
            addr,
            other,
            wired_and: true,
        })
    } else if is(word.bytes, b"or") {
        Ok(Fault::Also {
            addr,
            other,
            wired_and: false,
        })
    } else {
        refused(LineKind::Spelling, word.place)
    }
}

/// Reads what follows `af-instead`.
#[tactic(auto, unfolding(crate::specs::Reader::read))]
fn instead(shape: Shape, cursor: &mut Cursor<'_>) -> Result<Fault, LineRefusal>
    ensures { Reads shape (value Addr (λ a. value (OtherAddr a) (λ b. done (Instead a b))))
        cursor.old cursor.new result }
{
    let addr = value(NumberPlace::Ram, shape, cursor)?;
    let other = value(NumberPlace::OtherRam(addr), shape, cursor)?;
    Ok(Fault::Instead { addr, other })
}

/// Reads a fault.
#[tactic(auto, unfolding(crate::specs::Reader::read, crate::specs::Lines::fault))]
fn fault(shape: Shape, cursor: &mut Cursor<'_>) -> Result<Fault, LineRefusal>
    ensures { Reads shape fault cursor.old cursor.new result }
{
    let word = cursor.next()?;
    if is(word.bytes, b"sa") {
        stuck_at(shape, cursor)
    } else if is(word.bytes, b"tf-up") {
        transition(true, shape, cursor)
    } else if is(word.bytes, b"tf-down") {
        transition(false, shape, cursor)
    } else if is(word.bytes, b"cfin") {
        invert(shape, cursor)
    } else if is(word.bytes, b"cfid") {
        force(shape, cursor)
    } else if is(word.bytes, b"cfst") {
        state(shape, cursor)
    } else if is(word.bytes, b"af-none") {
        no_cell(shape, cursor)
    } else if is(word.bytes, b"af-also") {
        also(shape, cursor)
    } else if is(word.bytes, b"af-instead") {
        instead(shape, cursor)
    } else {
        refused(LineKind::Spelling, word.place)
    }
}

/// Reads what follows `tick`.
#[tactic(auto, unfolding(crate::specs::Reader::read))]
fn tick(shape: Shape, cursor: &mut Cursor<'_>) -> Result<Event, LineRefusal>
    ensures { Reads shape tick cursor.old cursor.new result }
{
    let module = cursor.next()?;
    if is(module.bytes, b"ram") {
        Ok(Event::TickRam)
    } else if is(module.bytes, b"fls") {
        Ok(Event::TickFls)
    } else {
        refused(LineKind::Spelling, module.place)
    }
}

/// Reads what stands on a line before its requests.
#[tactic(auto, unfolding(crate::specs::Reader::read, crate::specs::Lines::event))]
pub fn event(word: &Token<'_>, shape: Shape, cursor: &mut Cursor<'_>) -> Result<Event, LineRefusal>
    ensures { ReadsFrom shape event word.now cursor.old cursor.new result }
{
    if is(word.bytes, b"ram") {
        Ok(Event::Ram(ram_call(shape, cursor)?))
    } else if is(word.bytes, b"fls") {
        Ok(Event::Fls(fls_call(shape, cursor)?))
    } else if is(word.bytes, b"tick") {
        tick(shape, cursor)
    } else if is(word.bytes, b"app") {
        let op = cursor.next()?;
        Ok(Event::App(app_op(&op, shape, cursor)?))
    } else if is(word.bytes, b"inject") {
        Ok(Event::Inject(fault(shape, cursor)?))
    } else if is(word.bytes, b"heal") {
        Ok(Event::Heal)
    } else if is(word.bytes, b"burn") {
        let addr = value(NumberPlace::Flash, shape, cursor)?;
        let word = value(DataPlace, shape, cursor)?;
        Ok(Event::Burn { addr, word })
    } else if is(word.bytes, b"flip") {
        Ok(Event::Flip(value(SpotPlace::Flash, shape, cursor)?))
    } else {
        refused(LineKind::Spelling, word.place)
    }
}
