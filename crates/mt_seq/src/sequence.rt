//! One sequence on one slice.

ghost use Rattle.std.specs.Prelude.{◌≡◌, ◌<◌, ◌+◌, ◌^◌, None};
ghost use Rattle.mt_port.specs.Board.{Logs};
ghost use Rattle.mt_seq.specs.Sequence.{verdict_of, sequence_verdict, sequence_words, sequence_touches, sequence_hold, IsSoundJob, IsSoundSlice};
ghost use Rattle.mt_seq.specs.Stepping.{job_of};
ghost use Rattle.mt_seq.specs.Laws.{left_words};

use mt_plan::{Algorithm, Policy};
use mt_port::Port;

/// Words of the RAM that lie side by side: the first one's address, and how many they are, 1 to 64.
#[derive(Clone, Copy, Debug, PartialEq, Eq)]
pub struct Slice {
    pub first: u32,
    pub n: u8,
}

/// How a slice is tested: the algorithm, whether the words are kept, the background word, and the word with which a
/// destructive test fills the slice.
#[derive(Drop)]
pub struct Job {
    pub alg: Algorithm,
    pub policy: Policy,
    pub background: u64,
    pub fill: u64,
}

/// Whether each checked read answered the word that was expected.
#[derive(Clone, Copy, Debug, PartialEq, Eq)]
pub enum Verdict {
    Pass,
    Fail,
}

/// What a job says beside its algorithm.
#[derive(Clone, Copy, Debug, PartialEq, Eq)]
pub struct Frame {
    pub policy: Policy,
    pub background: u64,
    pub fill: u64,
}

impl Job {
    /// What the job says beside its algorithm.
    pub fn frame(&self) -> Frame
        ensures { self.now ≡ job_of self.now.alg result }
    {
        Frame {
            policy: self.policy,
            background: self.background,
            fill: self.fill,
        }
    }
}

pub(crate) fn verdict_from(pass: bool) -> Verdict
    ensures { result ≡ verdict_of pass }
{
    if pass { Verdict::Pass } else { Verdict::Fail }
}
