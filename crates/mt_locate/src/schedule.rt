//! The steps of a probe's algorithm, worked out once for all faults.

ghost use Rattle.std.specs.Prelude.{◌≡◌, ◌≤◌, length};
ghost use Rattle.mt_plan.specs.Plan.{steps_of};
ghost use Rattle.mt_locate.specs.Probes.{IsAcceptedProbe};

use crate::probe::Probe;
use mt_plan::{Act, Step, Steps, steps};
use std::marker::Model;

/// The most steps that a probe's algorithm has: 260 for each word, of which there are at most 16.
const MOST_STEPS: usize = 4160;

/// The steps of an algorithm, in their order.
#[derive(Drop)]
pub struct Schedule {
    places: [Step; MOST_STEPS],
    count: usize,
}

impl Model for Schedule {
    ghost use Rattle.std.specs.Prelude.{◌≤◌, List, take};
    ghost use Rattle.mt_plan.specs.declared.algorithm.Step.{Step};

    ghost Value = { List Step };

    ghost view = { λ s. take s.count s.places };

    ghost invariant = { λ s. s.count ≤ 4160 };
}

impl Schedule {
    /// The steps of a probe's algorithm.
    pub fn new(probe: &Probe) -> Schedule
        requires { IsAcceptedProbe probe.now }
        ensures { result ≡ steps_of probe.now.alg probe.now.n }
    {
        let n = u32::from(probe.n);
        let count = steps(&probe.alg, n);
        let mut places = [Step {
            cell: 0,
            act: Act::ReadPlain,
        }; MOST_STEPS];
        let mut cursor = Steps::new(&probe.alg, n);
        for index in 0..count {
            places[index as usize] = cursor.next(&probe.alg);
        }
        Schedule {
            places,
            count: count as usize,
        }
    }

    /// The steps.
    pub fn steps(&self) -> &[Step]
        ensures { result.now ≡ self.now }
    {
        &self.places[..self.count]
    }
}
