//! What a test is.

ghost use Rattle.std.specs.Prelude.{◌≡◌, ◌≤◌, ◌<◌, ◌+◌, ◌^◌, length, IfOk, IfErr, Some, None};
ghost use Rattle.mt_word.specs.Word.{Fits};
ghost use Rattle.mt_plan.specs.Plan.{IsAccepted};
ghost use Rattle.mt_seq.specs.Sequence.{is_transparent, sequence_hold};
ghost use Rattle.mt_engine.specs.Setup.{algorithm_of, is_transparent_name, plan_of, refusal_of, settings_refusal, text_refusal, IsPlan};

use crate::settings::{Refusal, Settings, algorithm_named};
use mt_march::read_march;
use mt_plan::{Algorithm, Policy, hold_of};
use mt_seq::{Job, Slice};
use mt_word::{Width, fits};

/// What a test is: the width of the words, how they are tested, and the slice.
#[derive(Drop)]
pub struct Plan {
    pub width: Width,
    pub job: Job,
    pub slice: Slice,
}

/// The algorithm of a text, or why there is none.
#[inline(always)]
fn read_algorithm(text: &[u8]) -> Result<Algorithm, Refusal>
    requires { length text.now ≤ 448 }
    ensures ok { IfOk result (λ algorithm. algorithm ≡ algorithm_of text.now) }
    ensures accepted { IfOk result IsAccepted }
    ensures transparent { IfOk result (λ algorithm. is_transparent algorithm ≡ is_transparent_name text.now) }
    ensures unrefused { IfOk result (λ _. text_refusal text.now ≡ None) }
    ensures err { IfErr result (λ refusal. text_refusal text.now ≡ Some refusal) }
{
    match algorithm_named(text) {
        Some(algorithm) => Ok(algorithm),
        None => match read_march(text) {
            Ok(march) => Ok(Algorithm::March(march)),
            Err(refusal) => Err(Refusal::March(refusal)),
        },
    }
}

/// The first rule that settings break.
#[tactic(auto, unfolding(crate::specs::Setup::settings_refusal))]
fn refusal(settings: Settings) -> Option<Refusal>
    ensures refusal { result ≡ settings_refusal settings }
    ensures some { result ≡ None → 1 ≤ settings.count }
    ensures small { result ≡ None → settings.count ≤ 64 }
    ensures inside { result ≡ None → settings.first + settings.count < 2 ^ 32 }
    ensures background { result ≡ None → Fits settings.width settings.background }
    ensures fill { result ≡ None → Fits settings.width settings.fill }
{
    if settings.count < 1 || settings.count > 64 {
        Some(Refusal::Count)
    } else if settings.count > u32::MAX - settings.first {
        Some(Refusal::Addresses)
    } else if !fits(settings.width, settings.background) {
        Some(Refusal::Background)
    } else if !fits(settings.width, settings.fill) {
        Some(Refusal::Fill)
    } else {
        None
    }
}

impl Plan {
    /// The plan of settings and the text of an algorithm, which is a name or a march.
    ///
    /// The names are `checkerboard`, `walk-path`, `galpat`, `transparent-galpat`, `march-c-minus` and `mats-plus`. A march is
    /// written as in `{*(w0); u(r0,w1); d(r1,w0)}`. Of several rules that are broken the first of [`Refusal`] is told.
    #[inline(always)]
    #[tactic(auto, unfolding(crate::specs::Setup::refusal_of))]
    pub fn read(settings: Settings, text: &[u8]) -> Result<Plan, Refusal>
        ensures ok { IfOk result (λ plan. plan ≡ plan_of settings text.now) }
        ensures sound { IfOk result IsPlan }
        ensures short { IfOk result (λ _. length text.now ≤ 448) }
        ensures unrefused { IfOk result (λ _. refusal_of settings text.now ≡ None) }
        ensures err { IfErr result (λ refusal. refusal_of settings text.now ≡ Some refusal) }
    {
        if let Some(refusal) = refusal(settings) {
            return Err(refusal);
        }
        if text.len() > 448 {
            return Err(Refusal::Length);
        }
        if text == b"transparent-galpat".as_slice() && settings.policy == Policy::Destructive {
            return Err(Refusal::TransparentFill);
        }
        match read_algorithm(text) {
            Ok(alg) => Ok(Plan::of(settings, alg)),
            Err(refusal) => Err(refusal),
        }
    }

    #[inline(always)]
    fn of(settings: Settings, alg: Algorithm) -> Plan
        requires { settings.count ≤ 64 }
        ensures { result ≡ record {
          width = settings.width;
          job = record { alg = alg; policy = settings.policy; background = settings.background; fill = settings.fill };
          slice = record { first = settings.first; n = settings.count };
        } }
    {
        Plan {
            width: settings.width,
            job: Job {
                alg,
                policy: settings.policy,
                background: settings.background,
                fill: settings.fill,
            },
            slice: Slice {
                first: settings.first,
                n: settings.count as u8,
            },
        }
    }

    /// How many accesses the whole test has.
    pub fn accesses(&self) -> u32
        requires { IsPlan self.now }
        ensures { result ≡ sequence_hold self.now.job self.now.slice.n }
    {
        hold_of(&self.job.alg, self.job.policy, u32::from(self.slice.n))
    }
}
