//! The comparison of one slice.

ghost use Rattle.std.specs.Prelude.{◌≡◌, ◌<◌, ◌≤◌, ◌+◌, ◌*◌, ◌^◌, Some, false, length, All};
ghost use Rattle.mt_window.specs.declared.reply.Detail.TheVariants.{Bgnd};
ghost use Rattle.mt_port.specs.Board.{IsWithinLimits, Logs};
ghost use Rattle.mt_seq.specs.Compare.{compare_hold};
ghost use Rattle.mt_window.specs.Slices.{attempted};
ghost use Rattle.mt_blocks.specs.Slices.{AreSpans, IsValid, piece_at, next_of, next_in, or_start};
ghost use Rattle.mt_blocks.specs.Accepted.{IsAcceptedFlashBlock, flash_block_at, flash_spans};
ghost use Rattle.mt_fls.specs.State.{bgnd_spans, fgnd_spans};
ghost use Rattle.mt_fls.specs.Event.{copy_of, is_different, result_of, detail_after, identifier_after, completing, attempt_at, passed, compared};

use crate::state::{Fls, State};
use mt_blocks::{FlashBlock, Position, following, is_last, next_of_test, or_start, slice_at};
use mt_port::Port;
use mt_seq::run_compare;
use mt_window::{Detail, TestResult};

// Where the copy of a slice begins.
fn copy_at(blocks: &[FlashBlock], at: Position) -> u32
    requires block { at.block < length blocks.now }
    requires small { copy_of blocks.now at < 2 ^ 32 }
    ensures { result ≡ copy_of blocks.now at }
{
    blocks[at.block as usize].copy + at.offset
}

// The sequence of a slice of these blocks.
#[tactic(auto, unfolding(mt_seq::specs::Compare::compare_hold))]
fn run_sequence<P: Port>(
    port: &mut P,
    blocks: &[FlashBlock],
    atomic: u32,
    at: Position,
) -> Option<u32>
    requires free { (P.state port.old).held ≡ false }
    requires limits { IsWithinLimits (P.state port.old).shape }
    requires blocks { All (IsAcceptedFlashBlock (P.state port.old).shape) blocks.now }
    requires spans { AreSpans atomic (flash_spans blocks.now) }
    requires valid { IsValid atomic (flash_spans blocks.now) at }
    requires room { (P.state port.old).count + compare_hold (piece_at atomic (flash_spans blocks.now) at).slice.n
        < 2 ^ 32 }
    ensures verdict { Some result
        ≡ (attempt_at blocks.now (piece_at atomic (flash_spans blocks.now) at) (P.state port.old)).verdict }
    ensures state { P.state port.new
        ≡ attempted (attempt_at blocks.now (piece_at atomic (flash_spans blocks.now) at) (P.state port.old))
        (P.state port.old) }
    ensures tape { Logs (P.tape port.old) (P.tape port.new)
        (attempt_at blocks.now (piece_at atomic (flash_spans blocks.now) at) (P.state port.old)).touches }
{
    let slice = slice_at(blocks, atomic, at);
    let copy = copy_at(blocks, at);
    run_compare(port, slice.first, copy, slice.n)
}

// What is known of a test that failed or not.
fn result_of(failed: bool) -> TestResult
    ensures { result ≡ result_of failed }
{
    if failed {
        TestResult::NotOk
    } else {
        TestResult::Ok
    }
}

/// Whether a sequence found a difference.
pub(crate) fn is_different(difference: Option<u32>) -> bool
    ensures { result ≡ is_different difference }
{
    match difference {
        None => false,
        Some(_) => true,
    }
}

// The identifier of the next interval.
fn identifier_after(end: u32, completed: Option<u32>) -> u32
    ensures { result ≡ identifier_after end completed }
{
    match completed {
        Some(id) if id < end => id + 1,
        _ => 0,
    }
}

impl Fls {
    /// The sequence of a slice of the pass.
    pub(crate) fn compare_bgnd<P: Port>(&self, port: &mut P, at: Position) -> Option<u32>
        requires free { (P.state port.old).held ≡ false }
        requires shape { (P.state port.old).shape ≡ self.now.setting.shape }
        requires valid { IsValid self.now.setting.config.atomic (bgnd_spans self.now) at }
        requires room { (P.state port.old).count
            + compare_hold (piece_at self.now.setting.config.atomic (bgnd_spans self.now) at).slice.n < 2 ^ 32 }
        ensures verdict { Some result ≡ (attempt_at self.now.setting.config.bgnd
            (piece_at self.now.setting.config.atomic (bgnd_spans self.now) at) (P.state port.old)).verdict }
        ensures state { P.state port.new ≡ attempted (attempt_at self.now.setting.config.bgnd
            (piece_at self.now.setting.config.atomic (bgnd_spans self.now) at) (P.state port.old)) (P.state port.old) }
        ensures tape { Logs (P.tape port.old) (P.tape port.new) (attempt_at self.now.setting.config.bgnd
            (piece_at self.now.setting.config.atomic (bgnd_spans self.now) at) (P.state port.old)).touches }
    {
        let config = self.config();
        run_sequence(port, config.bgnd.as_slice(), config.atomic, at)
    }

    /// The sequence of a slice of a foreground test.
    pub(crate) fn compare_fgnd<P: Port>(&self, port: &mut P, at: Position) -> Option<u32>
        requires free { (P.state port.old).held ≡ false }
        requires shape { (P.state port.old).shape ≡ self.now.setting.shape }
        requires valid { IsValid self.now.setting.config.atomic (fgnd_spans self.now) at }
        requires room { (P.state port.old).count
            + compare_hold (piece_at self.now.setting.config.atomic (fgnd_spans self.now) at).slice.n < 2 ^ 32 }
        ensures verdict { Some result ≡ (attempt_at self.now.setting.config.fgnd
            (piece_at self.now.setting.config.atomic (fgnd_spans self.now) at) (P.state port.old)).verdict }
        ensures state { P.state port.new ≡ attempted (attempt_at self.now.setting.config.fgnd
            (piece_at self.now.setting.config.atomic (fgnd_spans self.now) at) (P.state port.old)) (P.state port.old) }
        ensures tape { Logs (P.tape port.old) (P.tape port.new) (attempt_at self.now.setting.config.fgnd
            (piece_at self.now.setting.config.atomic (fgnd_spans self.now) at) (P.state port.old)).touches }
    {
        let config = self.config();
        run_sequence(port, config.fgnd.as_slice(), config.atomic, at)
    }

    // The position of the next slice of the pass; none after its last.
    fn next_of_pass(&self, at: Position) -> Option<Position>
        requires { IsValid self.now.setting.config.atomic (bgnd_spans self.now) at }
        ensures next { result ≡ next_of self.now.setting.config.atomic (bgnd_spans self.now) at }
        ensures valid { (p : _) → result ≡ Some p → IsValid self.now.setting.config.atomic (bgnd_spans self.now) p }
    {
        let config = self.config();
        following(config.bgnd.as_slice(), config.atomic, at)
    }

    /// The position of the pass after a slice.
    pub(crate) fn place_after(&self, at: Position) -> Position
        requires { IsValid self.now.setting.config.atomic (bgnd_spans self.now) at }
        ensures { result ≡ or_start (next_of self.now.setting.config.atomic (bgnd_spans self.now) at) }
    {
        or_start(self.next_of_pass(at))
    }

    // An interval is completed, and the next one begins.
    fn complete(&mut self, failed: bool)
        ensures { self.new ≡ completing self.old failed }
    {
        let id = identifier_after(self.config.interval_end, self.completed);
        self.completed = Some(id);
        self.result = result_of(failed);
        self.failed = false;
        self.state = State::Running {
            at: Position {
                block: 0,
                offset: 0,
            },
        };
    }

    // The details after a sequence of the pass.
    fn take_bgnd_detail(&mut self, at: Position, difference: Option<u32>)
        ensures { self.new
            ≡ record self.old {
              detail = detail_after Bgnd (piece_at self.old.setting.config.atomic (bgnd_spans self.old) at)
                  difference self.old.detail;
            } }
    {
        if let Some(addr) = difference {
            self.detail = Detail::Bgnd {
                block: at.block,
                addr,
            };
        }
    }

    /// What the end of a slice of the pass leaves.
    pub(crate) fn take_bgnd(&mut self, at: Position, difference: Option<u32>)
        requires { IsValid self.old.setting.config.atomic (bgnd_spans self.old) at }
        ensures { self.new
            ≡ passed self.old (piece_at self.old.setting.config.atomic (bgnd_spans self.old) at) difference }
    {
        let failed = self.failed || is_different(difference);
        let next = self.next_of_pass(at);
        self.take_bgnd_detail(at, difference);
        match next {
            None => self.complete(failed),
            Some(at) => {
                self.failed = failed;
                self.state = State::Running { at };
            }
        }
    }

    // Whether a slice is its foreground block's last.
    fn ends_block(&self, at: Position) -> bool
        requires { IsValid self.now.setting.config.atomic (fgnd_spans self.now) at }
        ensures { result ≡ (piece_at self.now.setting.config.atomic (fgnd_spans self.now) at).last }
    {
        let config = self.config();
        is_last(config.fgnd.as_slice(), config.atomic, at)
    }

    /// What the end of a slice of a foreground test leaves, where an earlier slice of it failed or not.
    pub(crate) fn take_fgnd(&mut self, at: Position, difference: Option<u32>, failed: bool)
        requires { IsValid self.old.setting.config.atomic (fgnd_spans self.old) at }
        ensures { self.new
            ≡ compared self.old (piece_at self.old.setting.config.atomic (fgnd_spans self.old) at) difference failed }
    {
        if let Some(addr) = difference {
            self.detail = Detail::Fgnd {
                block: at.block,
                addr,
            };
        }
        if self.ends_block(at) {
            self.fgnd = result_of(failed || is_different(difference));
        }
    }

    /// The position of the next slice of a foreground test; none after its last.
    pub(crate) fn next_of_block(&self, at: Position) -> Option<Position>
        requires { IsValid self.now.setting.config.atomic (fgnd_spans self.now) at }
        ensures { result ≡ next_in false self.now.setting.config.atomic (fgnd_spans self.now) at }
    {
        let config = self.config();
        next_of_test(config.fgnd.as_slice(), config.atomic, at, false)
    }
}
