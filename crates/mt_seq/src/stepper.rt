//! A sequence that is made one access at a time.

ghost use Rattle.std.specs.Prelude.{◌≡◌, ◌≢◌, ◌<◌, ◌≤◌, ◌+◌, ◌-◌, ◌^◌, ℕ, [], Some, true, length, All, ◌&&◌, nat_lt, if◌then◌else◌};
ghost use Rattle.mt_word.specs.Word.{Fits};
ghost use Rattle.mt_fault.specs.Items.{Item, passes};
ghost use Rattle.mt_plan.specs.Plan.{IsAccepted, steps_of};
ghost use Rattle.mt_seq.specs.Attempts.{may_back_out};
ghost use Rattle.mt_seq.specs.Makes.{Makes};
ghost use Rattle.mt_seq.specs.Sequence.{is_transparent, ending, sequence_hold};
ghost use Rattle.mt_seq.specs.Stepping.{begun, item_at, item_of_access, place_of, progress_of, stepped, FitsAccess, IsReady, IsStep, Runs};

use crate::access::Access;
use crate::attempt::restore;
use crate::course::Course;
use crate::sequence::{Job, Slice, Verdict, verdict_from};
use mt_plan::{Policy, hold_of};
use mt_port::Port;
use mt_word::Width;
use std::marker::Model;

/// Whether accesses are left, and if none is, the verdict.
#[derive(Clone, Copy, Debug, PartialEq, Eq)]
pub enum Progress {
    More,
    Ended(Verdict),
}

/// A sequence under way: each access in a call of its own.
#[derive(Drop)]
pub struct Stepper {
    job: Job,
    course: Course,
}

impl Model for Stepper {
    ghost use Rattle.mt_seq.specs.Stepping.{Stepping, view_of, IsCourse};

    ghost Value = { Stepping };

    ghost view = { λ s. view_of s.job s.course };

    ghost invariant = { λ s. IsCourse s.job s.course };
}

impl Stepper {
    /// A sequence of which nothing is made.
    pub fn new(job: Job, slice: Slice) -> Stepper
        requires accepted { IsAccepted job.alg }
        requires kept { is_transparent job.alg ≡ true → job.policy ≡ Policy.NonDestructive }
        requires some { 1 ≤ slice.n }
        requires small { slice.n ≤ 64 }
        ensures { result ≡ begun job slice }
    {
        let course = Course::new(&job.alg, job.frame(), slice);
        Stepper { job, course }
    }

    /// How many accesses were made.
    pub fn made(&self) -> u32
        ensures { result ≡ self.now.made }
    {
        self.course.made()
    }

    /// The next access, on words of a width. The caller makes it, and tells what it answered by `answered`.
    pub fn next(&self, width: Width) -> Access
        requires left { self.now.made < sequence_hold self.now.job self.now.slice.n }
        requires inside { self.now.slice.first + self.now.slice.n < 2 ^ 32 }
        requires background { Fits width self.now.job.background }
        requires fill { Fits width self.now.job.fill }
        requires fit { All (Fits width) self.now.saved }
        ensures item { item_at width self.now ≡ Some (item_of_access result) }
        ensures inside { place_of result < self.now.slice.first + self.now.slice.n }
        ensures fits { FitsAccess width result }
    {
        self.course.next(&self.job.alg, self.job.frame(), width)
    }

    /// The next access was made, and answered this word; what a write answers is not looked at.
    pub fn answered(&mut self, width: Width, answer: u64) -> Progress
        requires left { self.old.made < sequence_hold self.old.job self.old.slice.n }
        requires inside { self.old.slice.first + self.old.slice.n < 2 ^ 32 }
        requires background { Fits width self.old.job.background }
        requires fit { All (Fits width) self.old.saved }
        ensures view { (item : Item) → item_at width self.old ≡ Some item → self.new ≡ stepped self.old item answer }
        ensures progress { result ≡ progress_of (sequence_hold self.new.job self.new.slice.n - self.new.made) self.new }
    {
        let frame = self.job.frame();
        self.course.answered(&self.job.alg, frame, width, answer);
        self.course.progress()
    }

    /// Makes the next access.
    pub fn step<P: Port>(&mut self, port: &mut P) -> Progress
        requires ready { IsReady (P.state port.old) self.old 1 }
        requires left { self.old.made < sequence_hold self.old.job self.old.slice.n }
        ensures step { IsStep self.old (P.state port.old) (P.tape port.old) self.new (P.state port.new)
            (P.tape port.new) }
        // What the next steps need.
        ensures ready { (more : ℕ) → IsReady (P.state port.old) self.old (more + 1)
            → IsReady (P.state port.new) self.new more }
        ensures progress { result ≡ progress_of (sequence_hold self.new.job self.new.slice.n - self.new.made) self.new }
    {
        let frame = self.job.frame();
        self.course.step(port, &self.job.alg, frame);
        self.course.progress()
    }

    /// Makes accesses until so many are made.
    pub fn run<P: Port>(&mut self, port: &mut P, until: u32) -> Progress
        requires ready { IsReady (P.state port.old) self.old (until - self.old.made) }
        requires ahead { self.old.made ≤ until }
        requires to { until ≤ sequence_hold self.old.job self.old.slice.n }
        ensures runs { Runs self.old (P.state port.old) (P.tape port.old) self.new (P.state port.new)
            (P.tape port.new) }
        ensures made { self.new.made ≡ until }
        ensures progress { result ≡ progress_of (sequence_hold self.new.job self.new.slice.n - self.new.made) self.new }
    {
        let frame = self.job.frame();
        self.course.run(port, &self.job.alg, frame, until);
        self.course.progress()
    }

    /// Whether the attempt may still be given up: the words are kept, and the writes that end the sequence have not begun.
    pub fn can_back_out(&self) -> bool
        ensures { result ≡ may_back_out self.now.job self.now.slice.n self.now.made }
    {
        match self.job.policy {
            Policy::NonDestructive => self.course.made() < self.course.tested_at(),
            Policy::Destructive => false,
        }
    }

    /// Gives the attempt up: writes the saved words in rising order where the algorithm has begun, and answers how many words.
    pub fn back_out<P: Port>(self, port: &mut P) -> u32
        requires held { (P.state port.old).held ≡ true }
        requires keeps { self.job.policy ≡ Policy.NonDestructive }
        requires early { self.made < self.slice.n + length (steps_of self.job.alg self.slice.n) }
        requires inside { self.slice.first + self.slice.n ≤ (P.state port.old).shape.ram }
        requires fit { All (Fits (P.state port.old).shape.width) self.saved }
        requires room { (P.state port.old).count + self.slice.n < 2 ^ 32 }
        ensures count { result ≡ (if nat_lt self.slice.n self.made then self.slice.n else 0) }
        ensures made { Makes (if nat_lt self.slice.n self.made then ending self.job self.slice self.saved else [])
            (P.state port.old) (P.state port.new) (P.tape port.old) (P.tape port.new) true }
    {
        let slice = self.course.slice();
        if self.course.made() > u32::from(slice.n) {
            restore(port, slice, self.course.saved());
            u32::from(slice.n)
        } else {
            0
        }
    }
}

#[cfg(test)]
mod tests {
    use super::*;
    use mt_march::march_c_minus;
    use mt_plan::Algorithm;
    use mt_port::{PlainBoard, Shape};
    use std::test::Fail;

    /// Makes all accesses that are left, and answers whether one before the last did not answer More, and the last answer.
    fn step_all<P: Port>(port: &mut P, stepper: &mut Stepper, left: u32) -> (bool, Progress)
        requires ready { IsReady (P.state port.old) stepper.old left }
        requires left { stepper.old.made + left ≤ sequence_hold stepper.old.job stepper.old.slice.n }
    {
        let mut early = false;
        let mut last = Progress::More;
        let mut left = left;
        while left > 0 {
            early |= last != Progress::More;
            last = stepper.step(port);
            left -= 1;
        }
        (early, last)
    }

    /// Makes accesses until so many are made, and gives the attempt up where it may be; the second answer is then how many
    /// words were written back.
    fn run_and_give_up<P: Port>(
        port: &mut P,
        stepper: Stepper,
        until: u32,
    ) -> (Progress, Option<u32>)
        requires ready { IsReady (P.state port.old) stepper (until + stepper.slice.n) }
        requires begun { stepper.made ≡ 0 }
        requires to { until ≤ sequence_hold stepper.job stepper.slice.n }
    {
        let mut stepper = stepper;
        let progress = stepper.run(port, until);
        if stepper.can_back_out() {
            (progress, Some(stepper.back_out(port)))
        } else {
            (progress, None)
        }
    }

    fn march_job() -> Job
        ensures accepted { IsAccepted result.alg }
        ensures policy { result.policy ≡ Policy.NonDestructive }
        ensures background { result.background ≡ 0 }
        ensures fill { result.fill ≡ 0 }
        ensures kept { is_transparent result.alg ≢ true }
    {
        Job {
            alg: Algorithm::March(march_c_minus()),
            policy: Policy::NonDestructive,
            background: 0,
            fill: 0,
        }
    }

    #[test]
    #[tactic(auto, unfolding(mt_port::specs::Board::powered_up))]
    fn an_attempt_is_given_up(rt: HostRuntime) -> Result<(), Fail> {
        let shape = Shape {
            width: Width::W8,
            ram: 10,
            flash: 0,
        };
        let mut board = PlainBoard::new(rt.alloc(), shape, 0).ok().ok_or("memory")?;
        let job = march_job();
        let hold = hold_of(&job.alg, job.policy, 2);
        let stepper = Stepper::new(job, Slice { first: 8, n: 2 });
        board.hold();
        let answers = run_and_give_up(&mut board, stepper, hold / 2);
        assert_eq!(rt; answers, (Progress::More, Some(2)));
        assert_eq!(rt; board.made(), 14);
        Ok(())
    }

    #[test]
    fn a_first_access_is_answered(rt: HostRuntime) {
        let mut stepper = Stepper::new(march_job(), Slice { first: 8, n: 2 });
        let access = stepper.next(Width::W8);
        assert_eq!(rt; access, Access::Look { addr: 8 });
        assert_eq!(rt; stepper.answered(Width::W8, 5), Progress::More);
        assert_eq!(rt; stepper.made(), 1);
    }

    #[test]
    #[tactic(auto, unfolding(mt_port::specs::Board::powered_up))]
    fn march_c_minus_access_by_access(rt: HostRuntime) -> Result<(), Fail> {
        let shape = Shape {
            width: Width::W8,
            ram: 10,
            flash: 0,
        };
        let mut board = PlainBoard::new(rt.alloc(), shape, 0).ok().ok_or("memory")?;
        let job = march_job();
        let hold = hold_of(&job.alg, job.policy, 2);
        let mut stepper = Stepper::new(job, Slice { first: 8, n: 2 });
        board.hold();
        let (early, last) = step_all(&mut board, &mut stepper, hold);
        assert!(rt; !early);
        assert_eq!(rt; last, Progress::Ended(Verdict::Pass));
        assert_eq!(rt; stepper.made(), 24);
        assert_eq!(rt; board.made(), 24);
        Ok(())
    }
}
