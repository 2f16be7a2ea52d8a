//! The calls of `include/mt.h`, by which C makes the tests of `mt_engine`.
//!
//! No call asks for more than that its pointers are good: what they point to may be any numbers, and a state that is none of a
//! test is refused and stays as it was.
#![tactic(auto)]

ghost use Rattle.std.specs.Prelude.{◌≡◌, ◌≢◌, ◌≤◌, true, false};
ghost use Rattle.mt_engine.specs.Setup.{plan_of};
ghost use Rattle.mt_engine.specs.Testing.{answered, broken_off, due, is_no_answer, may_break_off, set_up};
ghost use Rattle.mt_seq.specs.Sequence.{sequence_hold};
ghost use Rattle.mt_c.specs.Codes.{access_after, refusal_told, reply_number, reply_of};
ghost use Rattle.mt_c.specs.State.{bit, settings_of, testing_of, text_of, IsState};

mod codes;
mod laws;
mod state;

pub use codes::{MtAccess, MtRefusal};
use codes::{Reply, accepted, refused, tell};
pub use laws::the_least_rule_is_told;
use mt_engine::{NoWord, Plan};
pub use state::{MtSettings, MtTest};
use state::{bit, read_test};

/// Sets a test up, from settings and the text of an algorithm. The state is written only where nothing is refused.
#[unsafe(no_mangle)]
pub extern "C" fn mt_set_up(test: &mut MtTest, settings: &MtSettings, text: &[u8]) -> MtRefusal
    ensures told { result ≡ refusal_told settings.now text.now }
    ensures state { result.rule ≡ 0 → IsState test.new }
    ensures begun { result.rule ≡ 0 → testing_of test.new ≡ set_up (plan_of (settings_of settings.now) text.now) }
    ensures refused { result.rule ≢ 0 → test.new ≡ test.old }
{
    let typed = match settings.typed() {
        Ok(typed) => typed,
        Err(refusal) => return refusal,
    };
    match Plan::read(typed, text) {
        Ok(_) => {
            *test = MtTest::begun(*settings, text);
            accepted()
        }
        Err(refusal) => refused(refusal),
    }
}

/// Tells the access that is due, or how the test has ended.
#[unsafe(no_mangle)]
pub extern "C" fn mt_due(test: &MtTest, access: &mut MtAccess) -> u32
    ensures spoilt { (IsState test.now → ⊥) → result ≡ reply_number Reply.Spoilt }
    ensures kept { (IsState test.now → ⊥) → access.new ≡ access.old }
    ensures reply { IsState test.now → result ≡ reply_number (reply_of (due (testing_of test.now))) }
    ensures access { IsState test.now → access.new ≡ access_after (due (testing_of test.now)) access.old }
{
    let Some(plan) = read_test(test) else {
        return Reply::Spoilt.number();
    };
    let at = test.moment();
    tell(plan.due(at, &test.saved), access)
}

/// Takes in what the access that was due answered, and tells the next one, or how the test has ended.
#[unsafe(no_mangle)]
pub extern "C" fn mt_next(test: &mut MtTest, answer: u64, access: &mut MtAccess) -> u32
    ensures spoilt { (IsState test.old → ⊥) → result ≡ reply_number Reply.Spoilt }
    ensures no_word { IsState test.old
        → is_no_answer (due (testing_of test.old)) (testing_of test.old).width answer ≡ true
        → result ≡ reply_number Reply.NoWord }
    ensures stays { result ≡ reply_number Reply.Spoilt → test.new ≡ test.old }
    ensures due_still { result ≡ reply_number Reply.NoWord → test.new ≡ test.old }
    ensures untold { reply_number Reply.NoWord ≤ result → access.new ≡ access.old }
    ensures settings { test.new.settings ≡ test.old.settings }
    ensures text { text_of test.new ≡ text_of test.old }
    ensures state { IsState test.old → IsState test.new }
    ensures answered { IsState test.old
        → is_no_answer (due (testing_of test.old)) (testing_of test.old).width answer ≡ false
        → testing_of test.new ≡ answered (testing_of test.old) answer }
    ensures reply { IsState test.old
        → is_no_answer (due (testing_of test.old)) (testing_of test.old).width answer ≡ false
        → result ≡ reply_number (reply_of (due (testing_of test.new))) }
    ensures access { IsState test.old
        → is_no_answer (due (testing_of test.old)) (testing_of test.old).width answer ≡ false
        → access.new ≡ access_after (due (testing_of test.new)) access.old }
{
    let Some(plan) = read_test(test) else {
        return Reply::Spoilt.number();
    };
    let at = test.moment();
    match plan.answer(at, &mut test.saved, answer) {
        Ok(next) => {
            test.put(next);
            tell(plan.due(next, &test.saved), access)
        }
        Err(NoWord) => Reply::NoWord.number(),
    }
}

/// Whether the test may be broken off now: 1 or 0. A spoilt state may not.
#[unsafe(no_mangle)]
pub extern "C" fn mt_may_break_off(test: &MtTest) -> u32
    ensures spoilt { (IsState test.now → ⊥) → result ≡ 0 }
    ensures may { IsState test.now → result ≡ bit (may_break_off (testing_of test.now)) }
{
    match read_test(test) {
        Some(plan) => bit(plan.may_break_off(test.moment())),
        None => 0,
    }
}

/// Breaks the test off, and tells the first of the writes that put the words back, or that it has ended.
#[unsafe(no_mangle)]
pub extern "C" fn mt_break_off(test: &mut MtTest, access: &mut MtAccess) -> u32
    ensures spoilt { (IsState test.old → ⊥) → result ≡ reply_number Reply.Spoilt }
    ensures too_late { IsState test.old → may_break_off (testing_of test.old) ≡ false
        → result ≡ reply_number Reply.TooLate }
    ensures stays { result ≡ reply_number Reply.Spoilt → test.new ≡ test.old }
    ensures goes_on { result ≡ reply_number Reply.TooLate → test.new ≡ test.old }
    ensures untold { reply_number Reply.NoWord ≤ result → access.new ≡ access.old }
    ensures settings { test.new.settings ≡ test.old.settings }
    ensures text { text_of test.new ≡ text_of test.old }
    ensures state { IsState test.old → IsState test.new }
    ensures broken_off { IsState test.old → may_break_off (testing_of test.old) ≡ true
        → testing_of test.new ≡ broken_off (testing_of test.old) }
    ensures reply { IsState test.old → may_break_off (testing_of test.old) ≡ true
        → result ≡ reply_number (reply_of (due (testing_of test.new))) }
    ensures access { IsState test.old → may_break_off (testing_of test.old) ≡ true
        → access.new ≡ access_after (due (testing_of test.new)) access.old }
{
    let Some(plan) = read_test(test) else {
        return Reply::Spoilt.number();
    };
    let at = test.moment();
    if !plan.may_break_off(at) {
        return Reply::TooLate.number();
    }
    let back = plan.break_off(at);
    test.put(back);
    tell(plan.due(back, &test.saved), access)
}

/// How many accesses the whole test has, or 0 for a spoilt state.
#[unsafe(no_mangle)]
pub extern "C" fn mt_accesses(test: &MtTest) -> u32
    ensures spoilt { (IsState test.now → ⊥) → result ≡ 0 }
    ensures count { IsState test.now
        → result ≡ sequence_hold (testing_of test.now).known.job (testing_of test.now).known.slice.n }
{
    match read_test(test) {
        Some(plan) => plan.accesses(),
        None => 0,
    }
}

#[cfg(test)]
mod tests {
    use super::*;

    #[test]
    fn a_test_is_set_up_and_broken_off(rt: HostRuntime) {
        let settings = MtSettings {
            width: 8,
            policy: 0,
            first: 4,
            count: 2,
            background: 0,
            fill: 0,
        };
        let mut test = MtTest::begun(settings, b"");
        let mut access = MtAccess {
            word: 0,
            address: 0,
        };
        assert_eq!(rt; mt_due(&test, &mut access), 8);
        assert_eq!(rt; mt_set_up(&mut test, &settings, b"checkerboard").rule, 0);
        assert_eq!(rt; mt_accesses(&test), 12);
        assert_eq!(rt; mt_due(&test, &mut access), 1);
        assert_eq!(rt; mt_next(&mut test, 7, &mut access), 1);
        assert_eq!(rt; access.address, 5);
        assert_eq!(rt; mt_may_break_off(&test), 1);
        assert_eq!(rt; mt_break_off(&mut test, &mut access), 5);
    }
}
