//! Many accesses of a sequence in one call.

ghost use Rattle.std.specs.Prelude.{◌≡◌, ◌<◌, ◌≤◌, ◌+◌, ◌-◌};
ghost use Rattle.mt_seq.specs.Stepping.{job_of, view_of, IsCourse, IsReady, RunsOf};

use crate::course::Course;
use crate::sequence::Frame;
use mt_plan::Algorithm;
use mt_port::Port;

impl Course {
    /// Makes saving reads until so many accesses are made.
    fn save<P: Port>(&mut self, port: &mut P, alg: &Algorithm, frame: Frame, until: u32)
        requires course { IsCourse (job_of alg.now frame) self.old }
        requires ready { IsReady (P.state port.old) (view_of (job_of alg.now frame) self.old) (until - self.old.made) }
        requires to { until ≤ self.old.testing_from }
        ensures course { IsCourse (job_of alg.now frame) self.new }
        ensures runs { RunsOf (job_of alg.now frame) self.old (P.state port.old) (P.tape port.old) self.new
            (P.state port.new) (P.tape port.new) }
        ensures done { self.old.made ≤ until → self.new.made ≡ until }
        ensures none { until ≤ self.old.made → self.new.made ≡ self.old.made }
    {
        while self.made() < until {
            self.save_one(port, alg, frame);
        }
    }

    /// Makes accesses of the algorithm until so many accesses are made.
    fn test_all<P: Port>(&mut self, port: &mut P, alg: &Algorithm, frame: Frame, until: u32)
        requires course { IsCourse (job_of alg.now frame) self.old }
        requires ready { IsReady (P.state port.old) (view_of (job_of alg.now frame) self.old) (until - self.old.made) }
        requires from { self.old.made < until → self.old.testing_from ≤ self.old.made }
        requires to { until ≤ self.old.ending_from }
        ensures course { IsCourse (job_of alg.now frame) self.new }
        ensures runs { RunsOf (job_of alg.now frame) self.old (P.state port.old) (P.tape port.old) self.new
            (P.state port.new) (P.tape port.new) }
        ensures done { self.old.made ≤ until → self.new.made ≡ until }
        ensures none { until ≤ self.old.made → self.new.made ≡ self.old.made }
    {
        let width = port.shape().width;
        while self.made() < until {
            self.test_some(port, alg, frame, width, until);
        }
    }

    /// Makes writes that end the sequence until so many accesses are made.
    fn end<P: Port>(&mut self, port: &mut P, alg: &Algorithm, frame: Frame, until: u32)
        requires course { IsCourse (job_of alg.now frame) self.old }
        requires ready { IsReady (P.state port.old) (view_of (job_of alg.now frame) self.old) (until - self.old.made) }
        requires from { self.old.made < until → self.old.ending_from ≤ self.old.made }
        requires to { until ≤ self.old.ending_from + self.old.slice.n }
        ensures course { IsCourse (job_of alg.now frame) self.new }
        ensures runs { RunsOf (job_of alg.now frame) self.old (P.state port.old) (P.tape port.old) self.new
            (P.state port.new) (P.tape port.new) }
        ensures done { self.old.made ≤ until → self.new.made ≡ until }
        ensures none { until ≤ self.old.made → self.new.made ≡ self.old.made }
    {
        while self.made() < until {
            self.end_one(port, alg, frame);
        }
    }

    /// Makes accesses until so many are made.
    pub fn run<P: Port>(&mut self, port: &mut P, alg: &Algorithm, frame: Frame, until: u32)
        requires course { IsCourse (job_of alg.now frame) self.old }
        requires ready { IsReady (P.state port.old) (view_of (job_of alg.now frame) self.old) (until - self.old.made) }
        requires ahead { self.old.made ≤ until }
        requires to { until ≤ self.old.ending_from + self.old.slice.n }
        ensures course { IsCourse (job_of alg.now frame) self.new }
        ensures runs { RunsOf (job_of alg.now frame) self.old (P.state port.old) (P.tape port.old) self.new
            (P.state port.new) (P.tape port.new) }
        ensures made { self.new.made ≡ until }
    {
        let saved = until.min(self.saved_at());
        self.save(port, alg, frame, saved);
        let tested = until.min(self.tested_at());
        self.test_all(port, alg, frame, tested);
        self.end(port, alg, frame, until);
    }
}
