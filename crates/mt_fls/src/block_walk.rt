//! The walk of a foreground test.

ghost use Rattle.std.specs.Prelude.{◌≡◌, ◌<◌, length, nat_lt, Some, true, false};
ghost use Rattle.mt_window.specs.Rows.{inside_of, work_in};
ghost use Rattle.mt_fls.specs.State.{IsBackPlace, IsPlace};
ghost use Rattle.mt_fls.specs.Table.{StartFgnd, comparing, row, state_of};
ghost use Rattle.mt_fls.specs.Walks.{IsBlockWalk, Returns, block_left, left_by};

use crate::slice::is_different;
use crate::state::{Back, Fls, State};
use crate::taken::{Taken, reply_by};
use mt_blocks::{Position, passes_begin, passes_go_on};
use mt_port::Port;
use mt_window::{Refusal, Reply, Walk};

/// A foreground test: its block, where its next slice is, whether a slice of it failed, how the call is taken, and the state to
/// which the module goes back.
#[derive(Drop)]
pub(crate) struct BlockWalk {
    pub(crate) block: u32,
    pub(crate) next: Option<Position>,
    pub(crate) failed: bool,
    pub(crate) taken: Taken,
    pub(crate) state: State,
}

// A call that compares nothing.
fn no_block(block: u32, why: Refusal, state: State) -> BlockWalk
    ensures { result ≡ record { block = block; next = None; failed = false; taken = Taken.Refused why; state = state } }
{
    BlockWalk {
        block,
        next: None,
        failed: false,
        taken: Taken::Refused(why),
        state,
    }
}

impl Fls {
    // Whether there is such a foreground block.
    fn has_block(&self, block: u32) -> bool
        ensures { result ≡ nat_lt block (length self.now.setting.config.fgnd) }
    {
        (block as usize) < self.config().fgnd.as_slice().len()
    }

    // A foreground test begins, where there is such a block.
    fn enter_block(&mut self, block: u32, back: Back, state: State) -> BlockWalk
        requires state { self.old.state ≡ state }
        requires back { state ≡ state_of back }
        requires row { row self.old (StartFgnd block) ≡ comparing self.old block back }
        requires place { IsBackPlace self.old.setting.config back }
        ensures callee { self.new ≡ inside_of (row self.old (StartFgnd block)) self.old }
        ensures left { block_left result self.new ≡ work_in (row self.old (StartFgnd block)) }
        ensures fits { IsBlockWalk result self.new }
        ensures returns { Returns result.block result.taken result.state self.old }
        ensures block { result.block ≡ block }
        ensures failed { result.failed ≡ false }
    {
        self.is_sound();
        passes_begin();
        if !self.has_block(block) {
            return no_block(block, Refusal::Range, state);
        }
        self.set_state(State::Foreground { back });
        BlockWalk {
            block,
            next: Some(Position { block, offset: 0 }),
            failed: false,
            taken: Taken::Runs,
            state,
        }
    }

    // A foreground test looks at the state.
    fn enter_foreground(&mut self, block: u32) -> BlockWalk
        ensures callee { self.new ≡ inside_of (row self.old (StartFgnd block)) self.old }
        ensures left { block_left result self.new ≡ work_in (row self.old (StartFgnd block)) }
        ensures fits { IsBlockWalk result self.new }
        ensures returns { Returns result.block result.taken result.state self.old }
        ensures block { result.block ≡ block }
        ensures failed { result.failed ≡ false }
    {
        self.is_sound();
        let state = self.state();
        match state {
            State::Init => self.enter_block(block, Back::Init, state),
            State::Running { at } => self.enter_block(block, Back::Running { at }, state),
            State::Suspended { at } => self.enter_block(block, Back::Suspended { at }, state),
            State::Aborted | State::Foreground { .. } => no_block(block, Refusal::Status, state),
            State::Uninit => no_block(block, Refusal::Uninit, state),
        }
    }

    // The module goes back to the state in which a foreground test was taken.
    fn leave_foreground(&mut self, taken: Taken, state: State)
        requires { taken ≡ Taken.Runs → IsPlace self.old.setting.config state }
        ensures { self.new ≡ left_by taken state self.old }
    {
        match taken {
            Taken::Runs => self.set_state(state),
            Taken::Refused(_) | Taken::Rests => {}
        }
    }
}

impl Walk<Fls> for BlockWalk {
    ghost use Rattle.std.specs.Prelude.{◌≡◌, ◌*◌, Option, ℕ, false, refl};
    ghost use Rattle.mt_blocks.specs.Slices.{Piece};
    ghost use Rattle.mt_blocks.specs.Laws.{word_count};
    ghost use Rattle.mt_fls.specs.declared.block_walk.BlockWalk.{BlockWalk};
    ghost use Rattle.mt_fls.specs.State.{FlsTst};
    ghost use Rattle.mt_fls.specs.Event.{of_block, foreground_test};
    ghost use Rattle.mt_fls.specs.Walks.{IsBlockWalk, Way, way_of, IsWayOf, block_left, block_handled, slices_handled, words_handled, same_shape};

    type Verdict = Option<u32>;

    type Name = u32;

    ghost Piece = { Piece };

    ghost tests = { of_block };

    ghost shape = { λ (f : FlsTst). f.setting.shape };

    ghost Fits = { IsBlockWalk };

    ghost left = { block_left };

    ghost failed = { λ (w : BlockWalk). w.failed };

    ghost Origin = { Way };

    ghost origin = { way_of };

    ghost Remembers = { IsWayOf };

    ghost call = { λ (w : BlockWalk). w.block };

    ghost running = { λ (block : ℕ). foreground_test block };

    ghost most = { λ (w : BlockWalk) (f : FlsTst). 2 * word_count (block_left w f) };

    ghost longest = { 2 * 64 };

    fn clear(_name: &u32, callee: &mut Fls) {
        callee.begin();
    }

    fn enter(name: &u32, callee: &mut Fls) -> BlockWalk {
        callee.enter_foreground(*name)
    }

    fn has_next(&self, _callee: &Fls) -> bool {
        passes_go_on();
        self.next.is_some()
    }

    fn stops(&self, _callee: &Fls) -> bool {
        false
    }

    fn retries(&self, _callee: &Fls) -> u32 {
        0
    }

    fn attempt<P: Port>(&mut self, callee: &Fls, port: &mut P, _may: bool) -> Option<Option<u32>> {
        passes_go_on();
        let Some(at) = self.next else { unreachable!() };
        Some(callee.compare_fgnd(port, at))
    }

    fn take(&mut self, callee: &mut Fls, verdict: Option<u32>) {
        passes_go_on();
        let Some(at) = self.next else { unreachable!() };
        self.next = callee.next_of_block(at);
        callee.take_fgnd(at, verdict, self.failed);
        self.failed = self.failed || is_different(verdict);
    }

    fn leave(&self, callee: &mut Fls) {
        callee.leave_foreground(self.taken, self.state);
    }

    fn reply(&self, made: u32) -> Reply {
        reply_by(self.taken, made)
    }

    ghost same_tests = { λ name. refl };

    ghost same_table = { refl };

    ghost same_shape = { same_shape };

    ghost handled_fits = { block_handled };

    ghost handled_left = { slices_handled };

    ghost handled_most = { words_handled };
}
