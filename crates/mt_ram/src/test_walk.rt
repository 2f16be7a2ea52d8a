//! The walk of a full or partial test.

ghost use Rattle.std.specs.Prelude.{◌≡◌, None, Ok, nat_lt, length};
ghost use Rattle.mt_ram.specs.State.{IsPlace, IsFailureOfPass, set_of};
ghost use Rattle.mt_ram.specs.Table.{RunFullTest, RunPartialTest, cell, row, in_state};
ghost use Rattle.mt_ram.specs.TestWalks.{is_whole, full_cell, block_cell, state_behind, IsWay, IsFailureOfWay, refused_walk, begun_walk, Enters};

use crate::result::keep_failed;
use crate::running::{Decision, Entered};
use crate::state::{Ram, State};
use mt_blocks::{Position, passes_begin, passes_go_on};
use mt_port::Port;
use mt_seq::{Verdict, sequences_are_short};
use mt_window::{Refusal, Reply, Walk};

/// All blocks of the selected set, or the one with a number.
#[derive(Clone, Copy, Debug, PartialEq, Eq)]
pub enum Test {
    Full,
    Block(u32),
}

/// A test: its next slice, whether a slice of the block's test failed, and what was decided just after boundary 0.
#[derive(Drop)]
pub struct TestWalk {
    pub(crate) name: Test,
    pub(crate) next: Option<Position>,
    pub(crate) failed: bool,
    pub(crate) entered: Entered,
}

// Whether it goes on after a block.
fn is_whole(test: Test) -> bool
    ensures { result ≡ is_whole test }
{
    match test {
        Test::Full => true,
        Test::Block(_) => false,
    }
}

// Why a full test is refused.
fn refusal_of_full(state: State) -> Option<Refusal>
    ensures cell { (r : _) → cell r RunFullTest state ≡ full_cell r result }
    ensures stopped { result ≡ None → state ≡ State.Stopped }
{
    match state {
        State::Stopped => None,
        State::Uninit => Some(Refusal::Uninit),
        State::Running { .. } | State::Suspended { .. } | State::Full | State::Partial { .. } => {
            Some(Refusal::Status)
        }
    }
}

// The suspended pass that a partial test interrupts, if any, or why the test is refused.
fn way_of_block(state: State) -> Result<Option<Position>, Refusal>
    ensures cell { (r : _) (block : _) → cell r (RunPartialTest block) state ≡ block_cell r block result }
    ensures place { (set : _) → IsPlace set state → IsWay set result }
    ensures failure { (failed : _) → IsFailureOfPass state failed → IsFailureOfWay result failed }
{
    match state {
        State::Stopped => Ok(None),
        State::Suspended { at } => Ok(Some(at)),
        State::Uninit => Err(Refusal::Uninit),
        State::Running { .. } | State::Full | State::Partial { .. } => Err(Refusal::Status),
    }
}

// The state after a partial test.
fn state_behind(back: Option<Position>) -> State
    ensures { result ≡ state_behind back }
{
    match back {
        None => State::Stopped,
        Some(at) => State::Suspended { at },
    }
}

fn refused(name: Test, why: Refusal) -> TestWalk
    ensures { result ≡ refused_walk name why }
{
    TestWalk {
        name,
        next: None,
        failed: false,
        entered: Entered {
            decision: Decision::Refuse(why),
            back: None,
        },
    }
}

fn begun(name: Test, from: Position, back: State) -> TestWalk
    ensures { result ≡ begun_walk name from back }
{
    TestWalk {
        name,
        next: Some(from),
        failed: false,
        entered: Entered {
            decision: Decision::Run,
            back: Some(back),
        },
    }
}

impl Ram {
    // Whether the selected set has such a block.
    fn has_block(&self, block: u32) -> bool
        ensures { result ≡ nat_lt block (length (set_of self.now).blocks) }
    {
        (block as usize) < self.set().blocks.as_slice().len()
    }

    // Changes the state alone.
    fn set_state(&mut self, state: State)
        requires place { IsPlace (set_of self.old) state }
        requires failure { IsFailureOfPass state self.old.failed }
        ensures { self.new ≡ in_state state self.old }
    {
        self.state = state;
    }

    // Begins a full test, where the module is stopped.
    fn enter_full(&mut self) -> TestWalk
        ensures { Enters Test.Full self.old self.new result }
    {
        passes_begin();
        let _set = self.set();
        if let Some(why) = refusal_of_full(self.state()) {
            return refused(Test::Full, why);
        }
        self.set_state(State::Full);
        let from = Position {
            block: 0,
            offset: 0,
        };
        begun(Test::Full, from, State::Stopped)
    }

    // Begins a partial test, where there is such a block.
    fn enter_way(&mut self, block: u32, back: Option<Position>) -> TestWalk
        requires cell { row self.old (RunPartialTest block) ≡ block_cell self.old block (Ok back) }
        requires place { IsPlace (set_of self.old) (State.Partial back) }
        requires failure { IsFailureOfPass (State.Partial back) self.old.failed }
        ensures { Enters (Test.Block block) self.old self.new result }
    {
        passes_begin();
        let _set = self.set();
        if !self.has_block(block) {
            return refused(Test::Block(block), Refusal::Range);
        }
        self.set_state(State::Partial { back });
        let from = Position { block, offset: 0 };
        begun(Test::Block(block), from, state_behind(back))
    }

    // Begins a partial test, where the module is stopped or suspended and there is such a block.
    fn enter_block(&mut self, block: u32) -> TestWalk
        ensures { Enters (Test.Block block) self.old self.new result }
    {
        passes_begin();
        let _set = self.set();
        match way_of_block(self.state()) {
            Err(why) => refused(Test::Block(block), why),
            Ok(back) => self.enter_way(block, back),
        }
    }
}

impl Walk<Ram> for TestWalk {
    ghost use Rattle.std.specs.Prelude.{◌≡◌, ◌*◌, ℕ, refl};
    ghost use Rattle.std.proofs.Common.{ap};
    ghost use Rattle.mt_blocks.specs.Slices.{Piece};
    ghost use Rattle.mt_blocks.specs.Laws.{word_count};
    ghost use Rattle.mt_ram.specs.declared.running.Entered.{Entered};
    ghost use Rattle.mt_ram.specs.declared.test_walk.Test.{Test};
    ghost use Rattle.mt_ram.specs.declared.test_walk.TestWalk.{TestWalk};
    ghost use Rattle.mt_ram.specs.State.{RamTst, Setting};
    ghost use Rattle.mt_ram.specs.Event.{of_test};
    ghost use Rattle.mt_ram.specs.Walks.{IsBy};
    ghost use Rattle.mt_ram.specs.TestWalks.{IsTestWalk, service_of, test_of, left_in_test, test_handled, test_handled_left};

    type Verdict = Verdict;

    type Name = Test;

    ghost Piece = { Piece };

    ghost tests = { of_test };

    ghost shape = { λ (r : RamTst). r.setting.shape };

    ghost Fits = { IsTestWalk };

    ghost left = { left_in_test };

    ghost failed = { λ (w : TestWalk). w.failed };

    ghost Origin = { Test × Entered };

    ghost origin = { λ (w : TestWalk). (w.name, w.entered) };

    ghost Remembers = { λ (o : Test × Entered) (r : RamTst). IsBy (service_of o.0) o.1 r };

    ghost call = { λ (w : TestWalk). w.name };

    ghost running = { test_of };

    ghost most = { λ (w : TestWalk) (r : RamTst). 262 * word_count (left_in_test w r) };

    ghost longest = { 262 * 64 };

    fn clear(_name: &Test, callee: &mut Ram) {
        callee.begin();
    }

    fn enter(name: &Test, callee: &mut Ram) -> TestWalk {
        match *name {
            Test::Full => callee.enter_full(),
            Test::Block(block) => callee.enter_block(block),
        }
    }

    fn has_next(&self, _callee: &Ram) -> bool {
        passes_go_on();
        self.next.is_some()
    }

    fn stops(&self, _callee: &Ram) -> bool {
        false
    }

    fn retries(&self, callee: &Ram) -> u32 {
        callee.set().retries
    }

    fn attempt<P: Port>(&mut self, callee: &Ram, port: &mut P, may: bool) -> Option<Verdict> {
        passes_go_on();
        sequences_are_short();
        let Some(at) = self.next else { unreachable!() };
        callee.attempt(port, at, may)
    }

    fn take(&mut self, callee: &mut Ram, verdict: Verdict) {
        passes_go_on();
        sequences_are_short();
        let Some(at) = self.next else { unreachable!() };
        self.next = callee.next_of_test(at, is_whole(self.name));
        let last = callee.take_result(at, verdict, self.failed);
        self.failed = keep_failed(verdict, self.failed, last);
    }

    fn leave(&self, callee: &mut Ram) {
        if let Some(back) = self.entered.back {
            callee.set_state(back);
        }
    }

    fn reply(&self, made: u32) -> Reply {
        self.entered.decision.reply(made)
    }

    ghost same_tests = { λ n. refl };

    ghost same_table = { refl };

    ghost same_shape = { λ a b e. ap (λ (s : Setting). s.shape) e };

    ghost handled_fits = { test_handled };

    ghost handled_left = { λ w r call f. test_handled_left w r call };

    ghost handled_most = { λ w r call f. ap (λ l. 262 * word_count l) (test_handled_left w r call) };
}
