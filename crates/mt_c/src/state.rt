//! A test as C keeps it.

ghost use Rattle.std.specs.Prelude.{◌≡◌, ◌≢◌, ◌≤◌, ℕ, List, length, take, true, false, ◌&&◌, IfSome, IfNone, IfOk, IfErr, Some, None};
ghost use Rattle.mt_engine.specs.Setup.{plan_of, IsPlan};
ghost use Rattle.mt_engine.specs.Testing.{testing, IsTest};
ghost use Rattle.mt_c.specs.Codes.{refusal_told};
ghost use Rattle.mt_c.specs.State.{bit, is_policy, is_width, moment_of, policy_of, settings_of, testing_of, text_of, width_of, IsState};

use crate::codes::MtRefusal;
use mt_engine::{Moment, Plan, Settings};
use mt_plan::Policy;
use mt_word::Width;

/// What a test is to be: 8, 16, 32 or 64 bits a word, whether the words are kept (0) or filled (1), the address of the first
/// word, the number of words, the background word, and the fill.
#[repr(C)]
#[derive(Clone, Copy)]
pub struct MtSettings {
    pub width: u32,
    pub policy: u32,
    pub first: u32,
    pub count: u32,
    pub background: u64,
    pub fill: u64,
}

/// A test: its settings, the text of its algorithm, where it stands, and the words that are saved.
#[repr(C)]
#[derive(Clone, Copy)]
pub struct MtTest {
    pub settings: MtSettings,
    pub length: u32,
    pub made: u32,
    pub differs: u32,
    pub broken: u32,
    pub text: [u8; 448],
    pub saved: [u64; 64],
}

/// 1 or 0.
pub(crate) fn bit(value: bool) -> u32
    ensures { result ≡ bit value }
{
    if value { 1 } else { 0 }
}

fn width_of(number: u32) -> Option<Width>
    ensures some { IfSome result (λ width. (is_width number ≡ true) × (width ≡ width_of number)) }
    ensures none { IfNone result (is_width number ≡ false) }
{
    match number {
        8 => Some(Width::W8),
        16 => Some(Width::W16),
        32 => Some(Width::W32),
        64 => Some(Width::W64),
        _ => None,
    }
}

fn policy_of(number: u32) -> Option<Policy>
    ensures some { IfSome result (λ policy. (is_policy number ≡ true) × (policy ≡ policy_of number)) }
    ensures none { IfNone result (is_policy number ≡ false) }
{
    match number {
        0 => Some(Policy::NonDestructive),
        1 => Some(Policy::Destructive),
        _ => None,
    }
}

/// A refusal by a rule that has no place.
fn by_rule(rule: u32) -> MtRefusal
    ensures { result ≡ record { rule = rule; place = 0 } }
{
    MtRefusal { rule, place: 0 }
}

impl MtSettings {
    /// The settings that the numbers stand for, or that the width's is none, or the policy's.
    pub(crate) fn typed(&self) -> Result<Settings, MtRefusal>
        ensures ok { IfOk result (λ settings. settings ≡ settings_of self.now) }
        ensures width { IfOk result (λ _. is_width self.now.width ≡ true) }
        ensures policy { IfOk result (λ _. is_policy self.now.policy ≡ true) }
        ensures wrong { IfErr result (λ _. (is_width self.now.width && is_policy self.now.policy) ≡ false) }
        ensures err { IfErr result (λ refusal. (text : List ℕ) → refusal ≡ refusal_told self.now text) }
        ensures some { IfErr result (λ refusal. refusal.rule ≢ 0) }
    {
        let Some(width) = width_of(self.width) else {
            return Err(by_rule(1));
        };
        let Some(policy) = policy_of(self.policy) else {
            return Err(by_rule(2));
        };
        Ok(Settings {
            width,
            policy,
            background: self.background,
            fill: self.fill,
            first: self.first,
            count: self.count,
        })
    }
}

/// The places that begin with these bytes.
fn places_of(text: &[u8]) -> [u8; 448]
    requires { length text.now ≤ 448 }
    ensures { take (length text.now) result ≡ text.now }
{
    let mut places = [0; 448];
    for (i, byte) in text.iter().enumerate() {
        places[i] = *byte;
    }
    places
}

impl MtTest {
    /// The test before its first access.
    pub(crate) fn begun(settings: MtSettings, text: &[u8]) -> MtTest
        requires { length text.now ≤ 448 }
        ensures settings { result.settings ≡ settings }
        ensures length { result.length ≡ length text.now }
        ensures text { text_of result ≡ text.now }
        ensures moment { moment_of result ≡ record { made = 0; differs = false; broken = false } }
        ensures differs { result.differs ≡ 0 }
        ensures broken { result.broken ≡ 0 }
    {
        MtTest {
            settings,
            length: text.len() as u32,
            made: 0,
            differs: 0,
            broken: 0,
            text: places_of(text),
            saved: [0; 64],
        }
    }

    /// Keeps the moment.
    pub(crate) fn put(&mut self, at: Moment)
        ensures { self.new ≡ record self.old { made = at.made; differs = bit at.differs; broken = bit at.broken } }
    {
        self.made = at.made;
        self.differs = bit(at.differs);
        self.broken = bit(at.broken);
    }

    /// The moment that the numbers stand for.
    #[inline(always)]
    pub(crate) fn moment(&self) -> Moment
        ensures { result ≡ moment_of self.now }
    {
        Moment {
            made: self.made,
            differs: self.differs == 1,
            broken: self.broken == 1,
        }
    }
}

/// The plan of the test that C's numbers stand for, if they stand for one.
#[inline(always)]
pub(crate) fn read_test(state: &MtTest) -> Option<Plan>
    ensures plan { IfSome result (λ plan. plan ≡ plan_of (settings_of state.now.settings) (text_of state.now)) }
    ensures sound { IfSome result IsPlan }
    ensures test { IfSome result (λ plan. IsTest (testing plan (moment_of state.now) state.now.saved)) }
    ensures some { IfSome result (λ _. IsState state.now) }
    ensures none { IfNone result (IsState state.now → ⊥) }
{
    if state.length > 448 || state.differs > 1 || state.broken > 1 {
        return None;
    }
    let Ok(settings) = state.settings.typed() else {
        return None;
    };
    let Ok(plan) = Plan::read(settings, &state.text[..state.length as usize]) else {
        return None;
    };
    if plan.has_moment(state.moment(), &state.saved) {
        Some(plan)
    } else {
        None
    }
}
