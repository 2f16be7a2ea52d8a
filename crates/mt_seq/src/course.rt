//! A sequence under way, without its job.

ghost use Rattle.std.specs.Prelude.{◌≡◌, ◌<◌, ◌≤◌, ◌+◌, ◌-◌, ◌^◌, ℕ, Some, map, length, All, true, if◌then◌else◌, slice_index};
ghost use Rattle.mt_word.specs.Word.{Fits};
ghost use Rattle.mt_fault.specs.Items.{Item, Look, Store};
ghost use Rattle.mt_plan.specs.Accesses.{item_of};
ghost use Rattle.mt_plan.specs.Cursor.{Continues, IsCursor, begins_span, cells_of, made_by, span_of};
ghost use Rattle.mt_plan.specs.Plan.{IsAccepted, steps_of};
ghost use Rattle.mt_seq.specs.Makes.{Makes};
ghost use Rattle.mt_seq.specs.Sequence.{back_of, is_transparent, last_of, saving, sequence_hold};
ghost use Rattle.mt_seq.specs.Stepping.{begun, item_at, item_of_access, job_of, view_of, stepped, place_of, FitsAccess, IsCourse, IsMoved, IsNoLook, IsReady, IsStepOf, RunsOf, progress_of};
ghost use Rattle.mt_seq.specs.declared.sequence.Job.{Job};

use crate::access::{Access, access_of, word_of};
use crate::sequence::{Frame, Slice, verdict_from};
use crate::span::{Base, Ground, each_cell, galpat_base, on_cells, walk_base};
use crate::stepper::Progress;
use arrayvec::ArrayVec;
use mt_plan::{Algorithm, Line, Policy, Steps, spans_are_counted, steps};
use mt_port::Port;
use mt_word::Width;

/// One sequence, as far as it was made: first the saving reads, then the algorithm's accesses from `testing_from` on, and
/// from `ending_from` on the writes that end it. Each call takes the same algorithm and the same frame.
#[derive(Drop)]
pub struct Course {
    slice: Slice,
    made: u32,
    saved: ArrayVec<u64, 64>,
    differs: bool,
    transparent: bool,
    testing_from: u32,
    ending_from: u32,
    steps: Steps,
}

pub(crate) fn is_transparent(alg: &Algorithm) -> bool
    ensures { result ≡ is_transparent alg.now }
{
    match alg {
        Algorithm::TransparentGalpat => true,
        Algorithm::Checkerboard | Algorithm::March(_) | Algorithm::WalkPath | Algorithm::Galpat =>
            false,
    }
}

/// How many saving reads there are.
pub(crate) fn saving_reads(policy: Policy, slice: Slice) -> u32
    ensures count { result ≡ length (saving policy slice) }
    ensures few { result ≤ slice.n }
{
    match policy {
        Policy::NonDestructive => u32::from(slice.n),
        Policy::Destructive => 0,
    }
}

impl Course {
    /// A sequence of which nothing is made.
    pub fn new(alg: &Algorithm, frame: Frame, slice: Slice) -> Course
        requires accepted { IsAccepted alg.now }
        requires kept { is_transparent alg.now ≡ true → frame.policy ≡ Policy.NonDestructive }
        requires some { 1 ≤ slice.n }
        requires small { slice.n ≤ 64 }
        ensures course { IsCourse (job_of alg.now frame) result }
        ensures view { view_of (job_of alg.now frame) result ≡ begun (job_of alg.now frame) slice }
    {
        let n = u32::from(slice.n);
        let testing_from = saving_reads(frame.policy, slice);
        Course {
            slice,
            made: 0,
            saved: ArrayVec::new(),
            differs: false,
            transparent: is_transparent(alg),
            testing_from,
            ending_from: testing_from + steps(alg, n),
            steps: Steps::new(alg, n),
        }
    }

    /// How many accesses were made.
    pub fn made(&self) -> u32
        ensures { result ≡ self.now.made }
    {
        self.made
    }

    /// After how many accesses the algorithm begins.
    pub fn saved_at(&self) -> u32
        ensures { result ≡ self.now.testing_from }
    {
        self.testing_from
    }

    /// After how many accesses it has ended.
    pub fn tested_at(&self) -> u32
        ensures { result ≡ self.now.ending_from }
    {
        self.ending_from
    }

    /// The slice.
    pub fn slice(&self) -> Slice
        ensures { result ≡ self.now.slice }
    {
        self.slice
    }

    /// Whether accesses are left, and if none is, the verdict.
    pub fn progress(&self) -> Progress
        ensures { (job : Job) → IsCourse job self.now
            → result ≡ progress_of (sequence_hold job self.now.slice.n - self.now.made) (view_of job self.now) }
    {
        if self.made < self.ending_from {
            return Progress::More;
        }
        let ended = self.made - self.ending_from;
        if ended < u32::from(self.slice.n) {
            Progress::More
        } else {
            Progress::Ended(verdict_from(!self.differs))
        }
    }

    /// The words that the saving reads have answered.
    pub fn saved(&self) -> &[u64]
        ensures { result.now ≡ self.now.saved.items }
    {
        self.saved.as_slice()
    }

    /// Whether a checked read has answered another word than it was to answer.
    pub fn differs(&self) -> bool
        ensures { result ≡ self.now.differs }
    {
        self.differs
    }

    /// The next saving read.
    #[inline(always)]
    fn look(&self) -> Access
        requires { self.now.slice.first + self.now.made < 2 ^ 32 }
        ensures { result ≡ Access.Look (self.now.slice.first + self.now.made) }
    {
        Access::Look {
            addr: self.slice.first + self.made,
        }
    }

    /// The background word of a cell.
    #[inline(always)]
    fn back(&self, frame: Frame, cell: u8) -> u64
        requires { self.now.transparent ≡ true → cell < length self.now.saved.items }
        ensures { result ≡ (if self.now.transparent then slice_index self.now.saved.items cell else frame.background) }
    {
        if self.transparent {
            self.saved.as_slice()[cell as usize]
        } else {
            frame.background
        }
    }

    /// The algorithm's next access.
    #[inline(always)]
    fn test(&self, alg: &Algorithm, frame: Frame, width: Width) -> Access
        requires course { IsCourse (job_of alg.now frame) self.now }
        requires from { self.now.testing_from ≤ self.now.made }
        requires to { self.now.made < self.now.ending_from }
        requires inside { self.now.slice.first + self.now.slice.n < 2 ^ 32 }
        requires background { Fits width frame.background }
        requires fit { All (Fits width) self.now.saved.items }
        ensures item { item_at width (view_of (job_of alg.now frame) self.now) ≡ Some (item_of_access result) }
        ensures kind { IsNoLook (item_of_access result) }
        ensures inside { place_of result < self.now.slice.first + self.now.slice.n }
        ensures fits { FitsAccess width result }
    {
        let step = self.steps.peek(alg);
        let addr = self.slice.first + u32::from(step.cell);
        let back = self.back(frame, step.cell);
        access_of(addr, word_of(width, back, step.act), step.act)
    }

    /// The next of the writes that end the sequence.
    #[inline(always)]
    fn store(&self, frame: Frame) -> Access
        requires from { self.now.ending_from ≤ self.now.made }
        requires to { self.now.made < self.now.ending_from + self.now.slice.n }
        requires inside { self.now.slice.first + self.now.slice.n < 2 ^ 32 }
        requires saved { frame.policy ≡ Policy.NonDestructive → length self.now.saved.items ≡ self.now.slice.n }
        ensures { result ≡ Access.Store (self.now.slice.first + (self.now.made - self.now.ending_from))
            (last_of frame.policy frame.fill self.now.saved.items (self.now.made - self.now.ending_from)) }
    {
        let cell = self.made - self.ending_from;
        Access::Store {
            addr: self.slice.first + cell,
            word: match frame.policy {
                Policy::NonDestructive => self.saved.as_slice()[cell as usize],
                Policy::Destructive => frame.fill,
            },
        }
    }

    /// The next access.
    pub fn next(&self, alg: &Algorithm, frame: Frame, width: Width) -> Access
        requires course { IsCourse (job_of alg.now frame) self.now }
        requires left { self.now.made < self.now.ending_from + self.now.slice.n }
        requires inside { self.now.slice.first + self.now.slice.n < 2 ^ 32 }
        requires background { Fits width frame.background }
        requires fill { Fits width frame.fill }
        requires fit { All (Fits width) self.now.saved.items }
        ensures item { item_at width (view_of (job_of alg.now frame) self.now) ≡ Some (item_of_access result) }
        ensures inside { place_of result < self.now.slice.first + self.now.slice.n }
        ensures fits { FitsAccess width result }
    {
        if self.made < self.testing_from {
            self.look()
        } else if self.made < self.ending_from {
            self.test(alg, frame, width)
        } else {
            self.store(frame)
        }
    }

    /// A saving read was answered.
    #[inline(always)]
    fn looked(&mut self, answer: u64)
        requires room { length self.old.saved.items < 64 }
        requires few { self.old.made < 2 ^ 32 - 1 }
        ensures { (job : Job) (addr : ℕ) → IsCourse job self.old → self.old.made < self.old.testing_from
            → IsMoved job self.old (Look addr) answer self.new }
    {
        self.saved.push(answer);
        self.made += 1;
    }

    /// An access of the algorithm was answered.
    #[inline(always)]
    fn tested(&mut self, alg: &Algorithm, access: Access, answer: u64)
        requires cursor { IsCursor alg.now self.old.steps }
        requires left { made_by self.old.steps < length (steps_of alg.now (cells_of self.old.steps)) }
        requires few { self.old.made < 2 ^ 32 - 1 }
        requires kind { IsNoLook (item_of_access access) }
        ensures { (job : Job) → job.alg ≡ alg.now → IsCourse job self.old → self.old.testing_from ≤ self.old.made
            → self.old.made < self.old.ending_from
            → IsMoved job self.old (item_of_access access) answer self.new }
    {
        self.steps.advance(alg);
        self.differs |= !access.agrees(answer);
        self.made += 1;
    }

    /// One of the writes that end the sequence was made.
    #[inline(always)]
    fn stored(&mut self)
        requires few { self.old.made < 2 ^ 32 - 1 }
        ensures { (job : Job) (addr word answer : ℕ) → IsCourse job self.old → self.old.ending_from ≤ self.old.made
            → self.old.made < self.old.ending_from + self.old.slice.n
            → IsMoved job self.old (Store addr word) answer self.new }
    {
        self.made += 1;
    }

    /// The next access was made, and answered this word.
    pub fn answered(&mut self, alg: &Algorithm, frame: Frame, width: Width, answer: u64)
        requires course { IsCourse (job_of alg.now frame) self.old }
        requires left { self.old.made < self.old.ending_from + self.old.slice.n }
        requires inside { self.old.slice.first + self.old.slice.n < 2 ^ 32 }
        requires background { Fits width frame.background }
        requires fit { All (Fits width) self.old.saved.items }
        ensures course { IsCourse (job_of alg.now frame) self.new }
        ensures view { (item : Item) → item_at width (view_of (job_of alg.now frame) self.old) ≡ Some item
            → view_of (job_of alg.now frame) self.new ≡ stepped (view_of (job_of alg.now frame) self.old) item answer }
    {
        if self.made < self.testing_from {
            self.looked(answer);
        } else if self.made < self.ending_from {
            let access = self.test(alg, frame, width);
            self.tested(alg, access, answer);
        } else {
            self.stored();
        }
    }

    /// Makes the next saving read.
    #[inline(always)]
    pub fn save_one<P: Port>(&mut self, port: &mut P, alg: &Algorithm, frame: Frame)
        requires course { IsCourse (job_of alg.now frame) self.old }
        requires ready { IsReady (P.state port.old) (view_of (job_of alg.now frame) self.old) 1 }
        requires phase { self.old.made < self.old.testing_from }
        ensures course { IsCourse (job_of alg.now frame) self.new }
        ensures step { IsStepOf (job_of alg.now frame) self.old (P.state port.old) (P.tape port.old) self.new
            (P.state port.new) (P.tape port.new) }
    {
        let access = self.look();
        let answer = access.make(port);
        self.looked(answer);
    }

    /// Makes the algorithm's next access.
    #[inline(always)]
    pub fn test_one<P: Port>(&mut self, port: &mut P, alg: &Algorithm, frame: Frame, width: Width)
        requires course { IsCourse (job_of alg.now frame) self.old }
        requires ready { IsReady (P.state port.old) (view_of (job_of alg.now frame) self.old) 1 }
        requires width { width ≡ (P.state port.old).shape.width }
        requires from { self.old.testing_from ≤ self.old.made }
        requires to { self.old.made < self.old.ending_from }
        ensures course { IsCourse (job_of alg.now frame) self.new }
        ensures step { IsStepOf (job_of alg.now frame) self.old (P.state port.old) (P.tape port.old) self.new
            (P.state port.new) (P.tape port.new) }
    {
        let access = self.test(alg, frame, width);
        let answer = access.make(port);
        self.tested(alg, access, answer);
    }

    /// Whether the algorithm's next accesses are a span of at most so many.
    #[inline(always)]
    fn fits_span(&self, alg: &Algorithm, most: u32) -> bool
        requires cursor { IsCursor alg.now self.now.steps }
        requires left { made_by self.now.steps < length (steps_of alg.now (cells_of self.now.steps)) }
        ensures begins { result ≡ true → begins_span self.now.steps ≡ true }
        ensures next { result ≡ true
            → Continues (steps_of alg.now (cells_of self.now.steps)) (made_by self.now.steps)
            (span_of self.now.steps) }
        ensures some { result ≡ true → 1 ≤ length (span_of self.now.steps) }
        ensures fits { result ≡ true → length (span_of self.now.steps) ≤ most }
    {
        self.steps.begins_span(alg) && self.steps.span_len(alg) <= most
    }

    /// Makes the accesses of a span, and answers whether each read answered its word.
    #[inline(always)]
    fn make_span<P: Port>(&self, port: &mut P, alg: &Algorithm, frame: Frame, width: Width) -> bool
        requires course { IsCourse (job_of alg.now frame) self.now }
        requires ready { IsReady (P.state port.old) (view_of (job_of alg.now frame) self.now)
            (length (span_of self.now.steps)) }
        requires width { width ≡ (P.state port.old).shape.width }
        requires from { self.now.testing_from ≤ self.now.made }
        requires to { self.now.made < self.now.ending_from }
        ensures { Makes (map (item_of width self.now.slice.first (back_of (job_of alg.now frame) self.now.saved.items))
            (span_of self.now.steps))
            (P.state port.old) (P.state port.new) (P.tape port.old) (P.tape port.new) result }
    {
        spans_are_counted();
        let ground = Ground {
            first: self.slice.first,
            n: self.slice.n,
            width,
            background: frame.background,
            transparent: self.transparent,
        };
        let saved = self.saved.as_slice();
        match self.steps.line(alg) {
            Line::EachCell { even, odd } => each_cell(port, ground, saved, even, odd),
            Line::OnCell { .. } => on_cells(port, ground, self.steps.element()),
            Line::WalkBase { flipped, base } => {
                let base = Base {
                    cell: base as u8,
                    flipped,
                };
                walk_base(port, ground, saved, base)
            }
            Line::GalpatBase { flipped, base } => {
                let base = Base {
                    cell: base as u8,
                    flipped,
                };
                galpat_base(port, ground, saved, base)
            }
        }
    }

    /// Makes the algorithm's next accesses, which are a span.
    #[inline(always)]
    fn test_span<P: Port>(&mut self, port: &mut P, alg: &Algorithm, frame: Frame, width: Width)
        requires course { IsCourse (job_of alg.now frame) self.old }
        requires ready { IsReady (P.state port.old) (view_of (job_of alg.now frame) self.old)
            (length (span_of self.old.steps)) }
        requires width { width ≡ (P.state port.old).shape.width }
        requires from { self.old.testing_from ≤ self.old.made }
        requires to { self.old.made + length (span_of self.old.steps) ≤ self.old.ending_from }
        requires some { 1 ≤ length (span_of self.old.steps) }
        requires begins { begins_span self.old.steps ≡ true }
        requires next { Continues (steps_of alg.now (cells_of self.old.steps)) (made_by self.old.steps)
            (span_of self.old.steps) }
        ensures course { IsCourse (job_of alg.now frame) self.new }
        ensures runs { RunsOf (job_of alg.now frame) self.old (P.state port.old) (P.tape port.old) self.new
            (P.state port.new) (P.tape port.new) }
        ensures made { self.new.made ≡ self.old.made + length (span_of self.old.steps) }
    {
        let good = self.make_span(port, alg, frame, width);
        let count = self.steps.span_len(alg);
        self.steps.pass_span(alg);
        self.differs |= !good;
        self.made += count;
    }

    /// Makes a span of the algorithm's accesses, or one, where so many accesses are not made yet.
    #[inline(always)]
    pub fn test_some<P: Port>(
        &mut self,
        port: &mut P,
        alg: &Algorithm,
        frame: Frame,
        width: Width,
        until: u32,
    )
        requires course { IsCourse (job_of alg.now frame) self.old }
        requires ready { IsReady (P.state port.old) (view_of (job_of alg.now frame) self.old) (until - self.old.made) }
        requires width { width ≡ (P.state port.old).shape.width }
        requires from { self.old.testing_from ≤ self.old.made }
        requires left { self.old.made < until }
        requires to { until ≤ self.old.ending_from }
        ensures course { IsCourse (job_of alg.now frame) self.new }
        ensures runs { RunsOf (job_of alg.now frame) self.old (P.state port.old) (P.tape port.old) self.new
            (P.state port.new) (P.tape port.new) }
        ensures more { self.old.made < self.new.made }
        ensures to { self.new.made ≤ until }
    {
        if self.fits_span(alg, until - self.made) {
            self.test_span(port, alg, frame, width);
        } else {
            self.test_one(port, alg, frame, width);
        }
    }

    /// Makes the next of the writes that end the sequence.
    #[inline(always)]
    pub fn end_one<P: Port>(&mut self, port: &mut P, alg: &Algorithm, frame: Frame)
        requires course { IsCourse (job_of alg.now frame) self.old }
        requires ready { IsReady (P.state port.old) (view_of (job_of alg.now frame) self.old) 1 }
        requires from { self.old.ending_from ≤ self.old.made }
        requires to { self.old.made < self.old.ending_from + self.old.slice.n }
        ensures course { IsCourse (job_of alg.now frame) self.new }
        ensures step { IsStepOf (job_of alg.now frame) self.old (P.state port.old) (P.tape port.old) self.new
            (P.state port.new) (P.tape port.new) }
    {
        let access = self.store(frame);
        let _ = access.make(port);
        self.stored();
    }

    /// Makes the next access.
    pub fn step<P: Port>(&mut self, port: &mut P, alg: &Algorithm, frame: Frame)
        requires course { IsCourse (job_of alg.now frame) self.old }
        requires ready { IsReady (P.state port.old) (view_of (job_of alg.now frame) self.old) 1 }
        requires left { self.old.made < self.old.ending_from + self.old.slice.n }
        ensures course { IsCourse (job_of alg.now frame) self.new }
        ensures step { IsStepOf (job_of alg.now frame) self.old (P.state port.old) (P.tape port.old) self.new
            (P.state port.new) (P.tape port.new) }
    {
        let width = port.shape().width;
        if self.made < self.testing_from {
            self.save_one(port, alg, frame);
        } else if self.made < self.ending_from {
            self.test_one(port, alg, frame, width);
        } else {
            self.end_one(port, alg, frame);
        }
    }
}
