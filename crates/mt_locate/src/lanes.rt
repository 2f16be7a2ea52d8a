//! Two bits of a coupling fault, in 64 classes at once.
//!
//! Each bit of a word here is a lane: it stands for one class of faults, and the masks say of which.

ghost use Rattle.std.specs.Prelude.{◌≡◌, ◌<◌, ◌≤◌, ◌||◌, ℕ, Bool, not, if◌then◌else◌};
ghost use mathlib.Core.Bool.{beq};
ghost use Rattle.mt_word.specs.Word.{has_bit};
ghost use Rattle.mt_fault.specs.Faulty.{same};
ghost use Rattle.mt_plan.specs.Lists.{is_write, is_flipped};
ghost use Rattle.mt_decoder.specs.BitModel.{flipped_if, project, vic_other, vic_own};
ghost use Rattle.mt_locate.specs.Lanes.{agg_at, begun, goes_unseen, rule_of, side_at, value_at, vic_at};
ghost use Rattle.mt_locate.specs.Inner.Lanes.{GoesByRule, GoesOn};

use mt_plan::{Act, Step};

/// How an aggressor disturbs its victim.
#[derive(Clone, Copy)]
pub enum Means {
    /// Its change inverts the victim.
    Invert,
    /// Its change makes the victim 0 or 1.
    Force,
    /// Its state makes the victim 0 or 1.
    State,
}

/// The direction of the change, or the state, that disturbs.
pub const SIDE: u64 = 0xffff_ffff_0000_0000;
/// What the victim becomes.
pub const VALUE: u64 = 0xffff_0000_ffff_0000;
/// The aggressor's bit of the background word.
pub const AGG_BACK: u64 = 0xff00_ff00_ff00_ff00;
/// The aggressor's bit before the algorithm.
pub const AGG_FIRST: u64 = 0xf0f0_f0f0_f0f0_f0f0;
/// The victim's bit of the background word.
pub const VIC_BACK: u64 = 0xcccc_cccc_cccc_cccc;
/// The victim's bit before the algorithm.
pub const VIC_FIRST: u64 = 0xaaaa_aaaa_aaaa_aaaa;

/// The bits of `one` in the lanes of a mask, and of `other` in all others.
fn chosen(mask: u64, one: u64, other: u64) -> u64
    ensures { (l : ℕ) → l < 64 → has_bit result l ≡ (if has_bit mask l then has_bit one l else has_bit other l) }
{
    (mask & one) | (!mask & other)
}

/// The lanes in which two bits are one.
fn alike(one: u64, other: u64) -> u64
    ensures { (l : ℕ) → l < 64 → has_bit result l ≡ same (has_bit one l) (has_bit other l) }
{
    !(one ^ other)
}

/// The lanes of a mask, and those in which two bits differ.
fn or_differing(mask: u64, one: u64, other: u64) -> u64
    ensures { (l : ℕ) → l < 64 → has_bit result l ≡ (has_bit mask l || not (beq (has_bit one l) (has_bit other l))) }
{
    mask | (one ^ other)
}

/// The bits that an act writes or expects.
fn wanted(back: u64, act: Act) -> u64
    ensures { (l : ℕ) → l < 64 → has_bit result l ≡ flipped_if (is_flipped act) (has_bit back l) }
{
    match act {
        Act::WritePlain | Act::ReadPlain => back,
        Act::WriteFlipped | Act::ReadFlipped => !back,
    }
}

fn is_write(act: Act) -> bool
    ensures { result ≡ is_write act }
{
    match act {
        Act::WritePlain | Act::WriteFlipped => true,
        Act::ReadPlain | Act::ReadFlipped => false,
    }
}

/// The bits of aggressor and victim, and the lanes in which a read has shown another bit than it expects.
#[derive(Clone, Copy)]
pub struct Lanes {
    pub agg: u64,
    pub vic: u64,
    pub wrong: u64,
}

/// The victims' bits where the fault has come: an aggressor that holds disturbs at once.
fn first_victims(means: Means) -> u64
    ensures { (l : ℕ) → l < 64
        → has_bit result l ≡ begun means (side_at l) (value_at l) (agg_at l).first (vic_at l).first }
{
    match means {
        Means::Invert | Means::Force => VIC_FIRST,
        Means::State => chosen(alike(AGG_FIRST, SIDE), VALUE, VIC_FIRST),
    }
}

/// The victims' bits after a write to their word.
fn rewritten(means: Means, agg: u64, new: u64) -> u64
    ensures { (l : ℕ) → l < 64 → (was : Bool)
        → has_bit result l ≡ vic_own (rule_of means (side_at l) (value_at l)) (has_bit new l) (has_bit agg l) was }
{
    match means {
        Means::Invert | Means::Force => new,
        Means::State => chosen(alike(agg, SIDE), VALUE, new),
    }
}

/// The victims' bits after a write to the aggressor's word.
fn disturbed(means: Means, lanes: Lanes, new: u64) -> u64
    ensures { (l : ℕ) → l < 64
        → has_bit result l ≡ vic_other (rule_of means (side_at l) (value_at l)) (has_bit new l) (has_bit lanes.agg l)
        (has_bit lanes.vic l) }
{
    let holds = alike(new, SIDE);
    let changed = chosen(alike(lanes.agg, SIDE), 0, holds);
    match means {
        Means::Invert => lanes.vic ^ changed,
        Means::Force => chosen(changed, VALUE, lanes.vic),
        Means::State => chosen(holds, VALUE, lanes.vic),
    }
}

/// One act on the aggressor's word.
fn on_aggressor(means: Means, lanes: Lanes, act: Act) -> Lanes
    ensures { GoesByRule means 0 act lanes result }
{
    let new = wanted(AGG_BACK, act);
    if is_write(act) {
        return Lanes {
            agg: new,
            vic: disturbed(means, lanes, new),
            wrong: lanes.wrong,
        };
    }
    Lanes {
        agg: lanes.agg,
        vic: lanes.vic,
        wrong: or_differing(lanes.wrong, lanes.agg, new),
    }
}

/// One act on the victim's word.
fn on_victim(means: Means, lanes: Lanes, act: Act) -> Lanes
    ensures { GoesByRule means 1 act lanes result }
{
    let new = wanted(VIC_BACK, act);
    if is_write(act) {
        return Lanes {
            agg: lanes.agg,
            vic: rewritten(means, lanes.agg, new),
            wrong: lanes.wrong,
        };
    }
    Lanes {
        agg: lanes.agg,
        vic: lanes.vic,
        wrong: or_differing(lanes.wrong, lanes.vic, new),
    }
}

/// One step, with the aggressor in one cell and the victim in another.
fn stepped(means: Means, lanes: Lanes, step: Step, agg: u32, vic: u32) -> Lanes
    ensures { GoesOn means agg vic step lanes result }
{
    let cell = u32::from(step.cell);
    if cell == vic {
        return on_victim(means, lanes, step.act);
    }
    if cell == agg {
        return on_aggressor(means, lanes, step.act);
    }
    lanes
}

/// The lanes in which no read shows another bit than it expects, with the aggressor in one cell and the victim in another.
pub fn unseen(steps: &[Step], means: Means, agg: u32, vic: u32) -> u64
    ensures { (l : ℕ) → l < 64
        → has_bit result l ≡ goes_unseen means (side_at l) (value_at l) (agg_at l) (vic_at l)
        (project agg vic steps.now) }
{
    let mut lanes = Lanes {
        agg: AGG_FIRST,
        vic: first_victims(means),
        wrong: 0,
    };
    for step in steps {
        lanes = stepped(means, lanes, *step, agg, vic);
        if lanes.wrong == u64::MAX {
            return 0;
        }
    }
    lanes.wrong ^ u64::MAX
}
