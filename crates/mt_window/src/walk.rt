//! What a running call of a module tests.

ghost use Rattle.std.specs.Prelude.{◌≡◌, ◌<◌, ◌≤◌, ◌+◌, ◌*◌, ◌^◌, ℕ, Bool, true, false, nat_lt, is_some, List, [], ◌∷◌, length};
ghost use Rattle.mt_port.specs.declared.board.Shape.{Shape};
ghost use Rattle.mt_port.specs.declared.request.HandlerCall.{HandlerCall};
ghost use Rattle.mt_port.specs.Board.{Logs, is_urgent_due};
ghost use Rattle.mt_window.specs.Serving.{scene, IsReady};
ghost use Rattle.mt_window.specs.Events.{Running};
ghost use Rattle.mt_window.specs.Slices.{Tests, attempted, slices, started};

use crate::log::EventLog;
use crate::reply::Reply;
use crate::serve::{Callee, serve_due};
use mt_port::Port;

/// The slices that a running call of a module tests, one after another.
pub trait Walk<C: Callee> {
    /// The verdict of a slice.
    type Verdict;

    /// Which call it is.
    type Name;

    /// A slice.
    ghost Piece: { Type 0 };

    /// How slices are tested.
    ghost tests: { Tests C Piece Self.Verdict };

    /// The shape of the board that the module is set for.
    ghost shape: { C → Shape };

    /// The walk is one of that module.
    ghost Fits: { Self → C → Type 0 };

    /// The slices that are left.
    ghost left: { Self → C → List Piece };

    /// Whether a slice of this test failed.
    ghost failed: { Self → Bool };

    /// What the walk remembers of the module from before its first slice.
    ghost Origin: { Type 0 };

    ghost origin: { Self → Origin };

    ghost Remembers: { Origin → C → Type 0 };

    /// Which call it is, and what a call of that name does.
    ghost call: { Self → Self.Name };

    ghost running: { Self.Name → Running C Piece Self.Verdict };

    /// How many test accesses the slices that are left need, each tested once, and how many one slice needs.
    ghost most: { Self → C → ℕ };

    ghost longest: { ℕ };

    /// The event begins.
    fn clear(name: &Self::Name, callee: &mut C)
        ensures callee { callee.new ≡ (running name.now).cleared callee.old }
        ensures setting { C.setting callee.new ≡ C.setting callee.old };

    /// The module looks at its state.
    fn enter(name: &Self::Name, callee: &mut C) -> Self
        ensures callee { callee.new ≡ (running name.now).inside callee.old }
        ensures setting { C.setting callee.new ≡ C.setting callee.old }
        ensures name { call result ≡ name.now }
        ensures fits { Fits result callee.new }
        ensures left { left result callee.new ≡ (running name.now).work callee.old }
        ensures failed { failed result ≡ false }
        ensures most { most result callee.new + longest * 256 < 2 ^ 32 }
        ensures remembers { Remembers (origin result) callee.old };

    /// Whether a slice is left.
    fn has_next(&self, callee: &C) -> bool
        requires { Fits self.now callee.now }
        ensures { result ≡ nat_lt 0 (length (left self.now callee.now)) };

    /// Whether the module goes no further.
    fn stops(&self, callee: &C) -> bool
        ensures { result ≡ (tests).stops callee.now };

    /// How many attempts at one slice may be dropped.
    fn retries(&self, callee: &C) -> u32
        ensures { result ≡ (tests).retries callee.now };

    /// An attempt at the next slice, which may be dropped or not.
    fn attempt<P: Port>(&mut self, callee: &C, port: &mut P, may: bool) -> Option<Self::Verdict>
        requires fits { Fits self.old callee.now }
        requires some { 0 < length (left self.old callee.now) }
        requires goes { (tests).stops callee.now ≡ false }
        requires free { (P.state port.old).held ≡ false }
        requires shape { (P.state port.old).shape ≡ shape callee.now }
        requires room { (P.state port.old).count + most self.old callee.now < 2 ^ 32 }
        ensures fits { Fits self.new callee.now }
        ensures left { left self.new callee.now ≡ left self.old callee.now }
        ensures failed { failed self.new ≡ failed self.old }
        ensures origin { origin self.new ≡ origin self.old }
        ensures name { call self.new ≡ call self.old }
        ensures most { most self.new callee.now ≡ most self.old callee.now }
        ensures verdict { (x : _) (more : _) → left self.old callee.now ≡ x ∷ more
            → result ≡ ((tests).attempt may callee.now x (P.state port.old)).verdict }
        ensures state { (x : _) (more : _) → left self.old callee.now ≡ x ∷ more
            → P.state port.new ≡ attempted ((tests).attempt may callee.now x (P.state port.old)) (P.state port.old) }
        ensures tape { (x : _) (more : _) → left self.old callee.now ≡ x ∷ more
            → Logs (P.tape port.old) (P.tape port.new) ((tests).attempt may callee.now x (P.state port.old)).touches }
        ensures short { (x : _) (more : _) → left self.old callee.now ≡ x ∷ more
            → ((tests).attempt may callee.now x (P.state port.old)).count ≤ (tests).hold callee.now x }
        ensures longest { (x : _) (more : _) → left self.old callee.now ≡ x ∷ more
            → (tests).hold callee.now x ≤ longest }
        // An attempt is dropped only where it may be, and leaves an urgent request due.
        ensures whole { may ≡ false → is_some result ≡ true }
        ensures due { is_some result ≡ false → is_urgent_due (P.state port.new).count (P.state port.new).left ≡ true };

    /// What the end of the next slice leaves.
    fn take(&mut self, callee: &mut C, verdict: Self::Verdict)
        requires fits { Fits self.old callee.old }
        requires some { 0 < length (left self.old callee.old) }
        requires goes { (tests).stops callee.old ≡ false }
        ensures fits { Fits self.new callee.new }
        ensures setting { C.setting callee.new ≡ C.setting callee.old }
        ensures origin { origin self.new ≡ origin self.old }
        ensures name { call self.new ≡ call self.old }
        ensures left { (x : _) (more : _) → left self.old callee.old ≡ x ∷ more → left self.new callee.new ≡ more }
        ensures failed { (x : _) (more : _) → left self.old callee.old ≡ x ∷ more
            → failed self.new ≡ (tests).failed x verdict (failed self.old) }
        ensures callee { (x : _) (more : _) → left self.old callee.old ≡ x ∷ more
            → callee.new ≡ (tests).taken callee.old x verdict (failed self.old) }
        ensures most { (x : _) (more : _) → left self.old callee.old ≡ x ∷ more
            → (tests).hold callee.old x + most self.new callee.new ≤ most self.old callee.old };

    /// After the last boundary the module goes back.
    fn leave(&self, callee: &mut C)
        requires { Fits self.now callee.old }
        ensures callee { (o : _) → Remembers (origin self.now) o
            → callee.new ≡ (running (call self.now)).back o callee.old }
        ensures setting { C.setting callee.new ≡ C.setting callee.old };

    /// The reply.
    fn reply(&self, made: u32) -> Reply
        ensures { (o : _) → Remembers (origin self.now) o → result ≡ (running (call self.now)).reply o made };

    /// Each call tests slices so.
    ghost same_tests: { (n : Self.Name) → (running n).tests ≡ tests };

    /// The handlers' calls are by the module's table.
    ghost same_table: { (tests).table ≡ C.table };

    /// The shape is part of the setting.
    ghost same_shape: { (a : C) (b : C) → C.setting a ≡ C.setting b → shape a ≡ shape b };

    /// No call of a handler leads off the walk.
    ghost handled_fits: { (w : Self) (c : C) (call : HandlerCall) → Fits w c → Fits w ((C.table).next c call) };

    ghost handled_left: { (w : Self) (c : C) (call : HandlerCall) → Fits w c
        → left w ((C.table).next c call) ≡ left w c };

    ghost handled_most: { (w : Self) (c : C) (call : HandlerCall) → Fits w c
        → most w ((C.table).next c call) ≡ most w c };
}

/// The slices that are left, one after another, with a boundary at the end of each attempt, as long as the module goes on.
pub(crate) fn run_slices<C: Callee, W: Walk<C>, P: Port>(
    walk: &mut W,
    callee: &mut C,
    port: &mut P,
    log: &mut EventLog,
)
    requires ready { IsReady C.kind (P.state port.old) log.old }
    requires fits { W.Fits walk.old callee.old }
    requires shape { (P.state port.old).shape ≡ W.shape callee.old }
    requires room { (P.state port.old).count + W.most walk.old callee.old
        + W.longest * length (P.state port.old).left < 2 ^ 32 }
    ensures scene { scene (P.state port.new) callee.new log.new
        ≡ (slices W.tests (W.left walk.old callee.old)
        (started (W.failed walk.old) (scene (P.state port.old) callee.old log.old))).scene }
    ensures ready { IsReady C.kind (P.state port.new) log.new }
    ensures setting { C.setting callee.new ≡ C.setting callee.old }
    ensures fits { W.Fits walk.new callee.new }
    ensures origin { W.origin walk.new ≡ W.origin walk.old }
    ensures name { W.call walk.new ≡ W.call walk.old }
    ensures tape { Logs (P.tape port.old) (P.tape port.new)
        ((slices W.tests (W.left walk.old callee.old) (started (W.failed walk.old) (scene (P.state port.old) callee.old log.old))).touches) }
{
    // How many attempts at the next slice may still be dropped.
    let mut tries = walk.retries(callee);
    while walk.has_next(callee) && !walk.stops(callee) {
        if let Some(verdict) = walk.attempt(callee, port, 0 < tries) {
            walk.take(callee, verdict);
            serve_due(port, callee, log);
            tries = walk.retries(callee);
            continue;
        }
        serve_due(port, callee, log);
        tries -= 1;
    }
}
