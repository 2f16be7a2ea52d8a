//! A test under way.

ghost use Rattle.std.specs.Prelude.{◌≡◌, ◌≤◌, ◌<◌, ◌+◌, ℕ, Bool, List, [], All, length, take, IfSome, IfNone, Some, None, true, false, not, IfOk, IfErr};
ghost use Rattle.mt_word.specs.Word.{Fits};
ghost use Rattle.mt_fault.specs.Items.{Item};
ghost use Rattle.mt_plan.specs.Plan.{steps_of};
ghost use Rattle.mt_seq.specs.Sequence.{sequence_hold};
ghost use Rattle.mt_seq.specs.Stepping.{item_at, item_of_access, IsNoLook};
ghost use Rattle.mt_engine.specs.Setup.{is_word, IsPlan};
ghost use Rattle.mt_engine.specs.Testing.{answered, asked, broken_off, due, ending_from, ending_of, is_no_answer, is_over, is_where_broken, may_break_off, saved_count, saved_places, set_up, testing, IsTest};

use crate::plan::Plan;
use mt_plan::{Policy, steps};
use mt_seq::{Access, access_at, sequences_are_short};
use mt_word::{Width, fits};

/// Where a test stands.
#[derive(Clone, Copy, Debug, PartialEq, Eq)]
pub struct Moment {
    /// How many accesses of the sequence were made, or lie before the place where it goes on.
    pub made: u32,
    /// Whether a checked read answered another word than it was to answer.
    pub differs: bool,
    /// Whether the test was broken off.
    pub broken: bool,
}

/// How a test ends.
#[derive(Clone, Copy, Debug, PartialEq, Eq)]
pub enum Ending {
    /// Each checked read answered its word.
    Pass,
    /// A checked read answered another word, also where the test was broken off after it.
    Fail,
    /// The test was broken off, and no checked read before had answered another word. The saved words were written back, if
    /// any word had been written.
    BrokenOff,
}

/// What is to be done next.
#[derive(Clone, Copy, Debug, PartialEq, Eq)]
pub enum Due {
    /// Read the word at an address, and tell it.
    Read(u32),
    /// Write a word to an address.
    Write(u32, u64),
    /// No access is left.
    Ended(Ending),
}

/// An answer that is no word of the memory's width.
#[derive(Clone, Copy, Debug, PartialEq, Eq)]
pub struct NoWord;

/// An access as it is asked for.
fn asked_for(access: Access) -> Due
    ensures { result ≡ asked (Some (item_of_access access)) }
{
    match access {
        Access::Look { addr } | Access::Check { addr, .. } => Due::Read(addr),
        Access::Store { addr, word } => Due::Write(addr, word),
    }
}

/// Whether a word may be what an access answered.
fn is_answer(width: Width, access: Access, word: u64) -> bool
    ensures { result ≡ not (is_no_answer (asked (Some (item_of_access access))) width word) }
{
    match access {
        Access::Look { .. } | Access::Check { .. } => fits(width, word),
        Access::Store { .. } => true,
    }
}

/// Whether each word is one of the width. The bits of all words together are a word of it exactly if each word is one.
fn all_fit(width: Width, words: &[u64]) -> bool
    ensures yes { result ≡ true → All (Fits width) words.now }
    ensures no { All (Fits width) words.now → result ≡ true }
{
    let mut joined = 0;
    for word in words {
        joined |= *word;
    }
    fits(width, joined)
}

impl Moment {
    /// The moment before the first access.
    pub fn first() -> Moment
        ensures { (plan : Plan) (places : List ℕ) → testing plan result places ≡ set_up plan }
    {
        Moment {
            made: 0,
            differs: false,
            broken: false,
        }
    }

    /// How the test ends that stands here without an access left.
    fn ending(self) -> Ending
        ensures { (plan : Plan) (places : List ℕ) → result ≡ ending_of (testing plan self places) }
    {
        if self.differs {
            Ending::Fail
        } else if self.broken {
            Ending::BrokenOff
        } else {
            Ending::Pass
        }
    }
}

impl Plan {
    /// How many words are saved behind so many accesses.
    fn saved_count(&self, made: u32) -> usize
        ensures count { result ≡ saved_count self.now.job.policy self.now.slice.n made }
        ensures few { result ≤ self.now.slice.n }
    {
        match self.job.policy {
            Policy::NonDestructive => made.min(u32::from(self.slice.n)) as usize,
            Policy::Destructive => 0,
        }
    }

    /// How many accesses stand before the writes that end the sequence, where the words are kept.
    fn ending_from(&self) -> u32
        requires { IsPlan self.now }
        ensures place { result ≡ self.now.slice.n + length (steps_of self.now.job.alg self.now.slice.n) }
        ensures hold { self.now.job.policy ≡ Policy.NonDestructive
            → result + self.now.slice.n ≡ sequence_hold self.now.job self.now.slice.n }
    {
        let n = u32::from(self.slice.n);
        n + steps(&self.job.alg, n)
    }

    /// Whether the test may have come to this moment, with these saved words.
    pub fn has_moment(&self, at: Moment, places: &[u64]) -> bool
        requires plan { IsPlan self.now }
        requires places { 64 ≤ length places.now }
        ensures yes { result ≡ true → IsTest (testing self.now at places.now) }
        ensures no { IsTest (testing self.now at places.now) → result ≡ true }
    {
        if at.made > self.accesses() {
            return false;
        }
        if !all_fit(self.width, &places[..self.saved_count(at.made)]) {
            return false;
        }
        !at.broken || self.may_stand_broken(at.made)
    }

    /// Whether a test that was broken off may stand behind so many accesses.
    fn may_stand_broken(&self, made: u32) -> bool
        requires plan { IsPlan self.now }
        ensures { (saved : List ℕ) (differs : Bool)
            → result ≡ is_where_broken (record {
              job = self.now.job;
              slice = self.now.slice;
              made = made;
              saved = saved;
              differs = differs;
            }) }
    {
        match self.job.policy {
            Policy::NonDestructive => made <= u32::from(self.slice.n) || self.ending_from() <= made,
            Policy::Destructive => false,
        }
    }

    /// Whether no access is left.
    fn is_over(&self, at: Moment) -> bool
        requires { IsPlan self.now }
        ensures { (places : List ℕ) → result ≡ is_over (testing self.now at places) }
    {
        at.broken && at.made <= u32::from(self.slice.n) || at.made == self.accesses()
    }

    /// The access that is due, of which one has to be left.
    fn next(&self, at: Moment, places: &[u64]) -> Access
        requires test { IsTest (testing self.now at places.now) }
        requires left { is_over (testing self.now at places.now) ≡ false }
        requires places { 64 ≤ length places.now }
        ensures item { item_at self.now.width (testing self.now at places.now).known ≡ Some (item_of_access result) }
        ensures saving { self.now.job.policy ≡ Policy.NonDestructive → at.made < self.now.slice.n
            → result ≡ Access.Look (self.now.slice.first + at.made) }
        ensures behind { self.now.slice.n ≤ at.made → IsNoLook (item_of_access result) }
        ensures filling { self.now.job.policy ≡ Policy.Destructive → IsNoLook (item_of_access result) }
    {
        let saved = &places[..self.saved_count(at.made)];
        access_at(&self.job, self.slice, self.width, at.made, saved)
    }

    /// The access that is due, or how the test has ended.
    #[tactic(auto, unfolding(crate::specs::Testing::due))]
    pub fn due(&self, at: Moment, places: &[u64]) -> Due
        requires test { IsTest (testing self.now at places.now) }
        requires places { 64 ≤ length places.now }
        ensures { result ≡ due (testing self.now at places.now) }
    {
        if self.is_over(at) {
            Due::Ended(at.ending())
        } else {
            asked_for(self.next(at, places))
        }
    }

    /// Keeps the word that a saving read answered.
    fn save(&self, made: u32, places: &mut [u64], word: u64)
        requires places { 64 ≤ length places.old }
        requires small { self.now.slice.n ≤ 64 }
        ensures { places.new ≡ saved_places self.now.job.policy self.now.slice.n made places.old word }
    {
        if self.job.policy == Policy::NonDestructive && made < u32::from(self.slice.n) {
            places[made as usize] = word;
        }
    }

    /// Takes in what the access that is due answered, and answers the moment behind it. What a write answers is not looked at,
    /// and a test without an access left stays as it is.
    ///
    /// A read answers a word of the memory's width: any other word is refused, and the access stays due.
    pub fn answer(&self, at: Moment, places: &mut [u64], word: u64) -> Result<Moment, NoWord>
        requires test { IsTest (testing self.now at places.old) }
        requires places { length places.old ≡ 64 }
        ensures ok { IfOk result
            (λ next. testing self.now next places.new ≡ answered (testing self.now at places.old) word) }
        ensures test { IfOk result (λ next. IsTest (testing self.now next places.new)) }
        ensures word { IfOk result
            (λ _. is_no_answer (due (testing self.now at places.old)) self.now.width word ≡ false) }
        ensures err { IfErr result
            (λ _. is_no_answer (due (testing self.now at places.old)) self.now.width word ≡ true) }
        ensures stays { IfErr result (λ _. places.new ≡ places.old) }
    {
        sequences_are_short();
        if self.is_over(at) {
            return Ok(at);
        }
        let access = self.next(at, places);
        if !is_answer(self.width, access, word) {
            return Err(NoWord);
        }
        self.save(at.made, places, word);
        Ok(Moment {
            made: at.made + 1,
            differs: at.differs | !access.agrees(word),
            broken: at.broken,
        })
    }

    /// Whether the test may be broken off: it keeps the words, and the writes that end it have not begun.
    #[tactic(auto, unfolding(crate::specs::Testing::may_break_off))]
    pub fn may_break_off(&self, at: Moment) -> bool
        requires { IsPlan self.now }
        ensures { (places : List ℕ) → result ≡ may_break_off (testing self.now at places) }
    {
        match self.job.policy {
            Policy::NonDestructive => !at.broken && at.made < self.ending_from(),
            Policy::Destructive => false,
        }
    }

    /// The moment at which a test goes on that is broken off, where it may be.
    pub fn break_off(&self, at: Moment) -> Moment
        requires plan { IsPlan self.now }
        requires may { may_break_off (testing self.now at []) ≡ true }
        ensures moment { (places : List ℕ) → testing self.now result places ≡ broken_off (testing self.now at places) }
        ensures test { (places : List ℕ) → IsTest (testing self.now at places)
            → IsTest (testing self.now result places) }
    {
        Moment {
            made: if u32::from(self.slice.n) < at.made {
                self.ending_from()
            } else {
                at.made
            },
            differs: at.differs,
            broken: true,
        }
    }
}

#[cfg(test)]
mod tests {
    use super::*;
    use crate::settings::{Refusal, Settings};
    use std::test::Fail;

    const SETTINGS: Settings = Settings {
        width: Width::W8,
        policy: Policy::NonDestructive,
        background: 0,
        fill: 0,
        first: 8,
        count: 2,
    };

    #[test]
    fn a_test_begins_and_is_broken_off(rt: HostRuntime) -> Result<(), Fail> {
        let plan = Plan::read(SETTINGS, b"checkerboard").ok().ok_or("plan")?;
        assert_eq!(rt; plan.accesses(), 12);
        let mut places = [0; 64];
        let first = Moment::first();
        assert!(rt; plan.has_moment(first, &places));
        assert_eq!(rt; plan.due(first, &places), Due::Read(8));
        assert_eq!(rt; plan.answer(first, &mut places, 256), Err(NoWord));
        let second = plan.answer(first, &mut places, 7).ok().ok_or("word")?;
        assert_eq!(rt; plan.due(second, &places), Due::Read(9));
        assert!(rt; plan.may_break_off(second));
        let back = plan.break_off(second);
        assert_eq!(rt; plan.due(back, &places), Due::Ended(Ending::BrokenOff));
        Ok(())
    }

    #[test]
    fn a_slice_of_65_words_is_refused(rt: HostRuntime) {
        let settings = Settings {
            count: 65,
            ..SETTINGS
        };
        assert!(rt; matches!(Plan::read(settings, b"galpat"), Err(Refusal::Count)));
    }
}
