//! The test of one slice.

ghost use Rattle.std.specs.Prelude.{◌≡◌, ◌<◌, ◌≤◌, ◌+◌, ◌*◌, ◌^◌, false, true, is_some, length};
ghost use Rattle.mt_port.specs.Board.{Logs, is_urgent_due};
ghost use Rattle.mt_seq.specs.Sequence.{sequence_hold};
ghost use Rattle.mt_seq.specs.Stepping.{job_of as framed};
ghost use Rattle.mt_window.specs.Slices.{attempted};
ghost use Rattle.mt_blocks.specs.Slices.{IsValid, next_in};
ghost use Rattle.mt_ram.specs.State.{set_of, spans_in, piece_in};
ghost use Rattle.mt_ram.specs.Event.{attempt_at, job_in, job_of, next_place, with_result, passed};

use crate::result::{keep_failed, next_result};
use crate::state::{Ram, State};
use mt_blocks::{
    ParamSet, Position, following, is_last, next_of_test, or_start, passes_go_on, slice_at,
};
use mt_port::Port;
use mt_seq::{
    Frame, Verdict, attempts_are_counted, sequences_are_short, try_slice,
    urgent_requests_wait_shortly,
};

// What a set says of a block, beside the algorithm.
fn frame_of(set: &ParamSet, block: u32) -> Frame
    requires { block < length set.now.blocks }
    ensures { framed set.now.alg result ≡ job_in set.now block }
{
    let tested = set.blocks.as_slice()[block as usize];
    Frame {
        policy: tested.policy,
        background: set.background,
        fill: tested.fill,
    }
}

impl Ram {
    /// An attempt at a slice, which may be dropped or not.
    pub(crate) fn attempt<P: Port>(&self, port: &mut P, at: Position, may: bool) -> Option<Verdict>
        requires free { (P.state port.old).held ≡ false }
        requires shape { (P.state port.old).shape ≡ self.now.setting.shape }
        requires valid { IsValid (set_of self.now).atomic (spans_in self.now) at }
        requires room { (P.state port.old).count
            + sequence_hold (job_of self.now (piece_in self.now at)) (piece_in self.now at).slice.n < 2 ^ 32 }
        ensures verdict { result ≡ (attempt_at may self.now (piece_in self.now at) (P.state port.old)).verdict }
        ensures state { P.state port.new
            ≡ attempted (attempt_at may self.now (piece_in self.now at) (P.state port.old)) (P.state port.old) }
        ensures tape { Logs (P.tape port.old) (P.tape port.new)
            (attempt_at may self.now (piece_in self.now at) (P.state port.old)).touches }
        ensures short { (attempt_at may self.now (piece_in self.now at) (P.state port.old)).count
            ≤ sequence_hold (job_of self.now (piece_in self.now at)) (piece_in self.now at).slice.n }
        ensures hold { sequence_hold (job_of self.now (piece_in self.now at)) (piece_in self.now at).slice.n
            ≤ 262 * 64 }
        ensures whole { may ≡ false → is_some result ≡ true }
        ensures due { is_some result ≡ false → is_urgent_due (P.state port.new).count (P.state port.new).left ≡ true }
    {
        attempts_are_counted();
        urgent_requests_wait_shortly();
        sequences_are_short();
        let set = self.set();
        let frame = frame_of(set, at.block);
        let slice = slice_at(set.blocks.as_slice(), set.atomic, at);
        try_slice(port, &set.alg, frame, slice, may)
    }

    // Whether a slice is its block's last.
    fn ends_block(&self, at: Position) -> bool
        requires { IsValid (set_of self.now).atomic (spans_in self.now) at }
        ensures { result ≡ (piece_in self.now at).last }
    {
        let set = self.set();
        is_last(set.blocks.as_slice(), set.atomic, at)
    }

    // The position of the pass after a slice.
    pub(crate) fn place_after(&self, at: Position) -> Position
        requires { IsValid (set_of self.now).atomic (spans_in self.now) at }
        ensures place { result ≡ next_place self.now at }
        ensures valid { IsValid (set_of self.now).atomic (spans_in self.now) result }
    {
        passes_go_on();
        let set = self.set();
        or_start(following(set.blocks.as_slice(), set.atomic, at))
    }

    /// The next slice of a full test, or of a partial one; none after its last.
    pub(crate) fn next_of_test(&self, at: Position, whole: bool) -> Option<Position>
        requires { IsValid (set_of self.now).atomic (spans_in self.now) at }
        ensures { result ≡ next_in whole (set_of self.now).atomic (spans_in self.now) at }
    {
        let set = self.set();
        next_of_test(set.blocks.as_slice(), set.atomic, at, whole)
    }

    /// What the end of a slice of a full or partial test leaves. Answers whether the slice was its block's last.
    pub(crate) fn take_result(&mut self, at: Position, verdict: Verdict, failed: bool) -> bool
        requires { IsValid (set_of self.old).atomic (spans_in self.old) at }
        ensures leaves { self.new ≡ with_result self.old (piece_in self.old at) verdict failed }
        ensures last { result ≡ (piece_in self.old at).last }
    {
        let last = self.ends_block(at);
        let place = at.block as usize;
        self.results[place] = next_result(self.results[place], verdict, failed, last);
        last
    }

    /// What the end of a slice of the pass leaves, which goes on at the next position.
    pub(crate) fn take_verdict(&mut self, at: Position, next: Position, verdict: Verdict)
        requires valid { IsValid (set_of self.old).atomic (spans_in self.old) at }
        requires next { next ≡ next_place self.old at }
        requires place { IsValid (set_of self.old).atomic (spans_in self.old) next }
        ensures { self.new ≡ passed self.old (piece_in self.old at) verdict }
    {
        let failed = self.failed;
        let last = self.take_result(at, verdict, failed);
        self.failed = keep_failed(verdict, failed, last);
        self.state = State::Running { at: next };
    }
}
