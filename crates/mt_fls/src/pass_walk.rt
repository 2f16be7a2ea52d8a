//! The walk of a tick.

ghost use Rattle.std.specs.Prelude.{◌≡◌, ◌<◌, ◌≤◌, length, take};
ghost use Rattle.mt_window.specs.Rows.{inside_of, work_in};
ghost use Rattle.mt_blocks.specs.Slices.{IsValid, from_place};
ghost use Rattle.mt_fls.specs.declared.state.State.{State};
ghost use Rattle.mt_fls.specs.State.{bgnd_spans, IsPointed};
ghost use Rattle.mt_fls.specs.Table.{MainFunction, group_at, row};
ghost use Rattle.mt_fls.specs.Walks.{IsPassWalk, Recalls, group_left};

use crate::state::{Fls, State};
use crate::taken::{Taken, reply_by};
use mt_blocks::{Position, group_len, groups_are_longest, or_start, passes_go_on};
use mt_port::Port;
use mt_window::{Refusal, Reply, Walk};

/// The group of a tick: where its next slice is, how many are left, and how the tick is taken.
#[derive(Drop)]
pub(crate) struct PassWalk {
    pub(crate) at: Position,
    pub(crate) len: u32,
    pub(crate) taken: Taken,
}

// A tick that compares nothing.
fn no_group(taken: Taken) -> PassWalk
    ensures { result ≡ record { at = record { block = 0; offset = 0 }; len = 0; taken = taken } }
{
    PassWalk {
        at: Position {
            block: 0,
            offset: 0,
        },
        len: 0,
        taken,
    }
}

impl Fls {
    // How many slices the group at a position has; none where there is no background block.
    fn group_len_at(&self, at: Position) -> u32
        requires { IsPointed self.now.setting.config at }
        ensures group { group_at self.now at
            ≡ take result (from_place self.now.setting.config.atomic (bgnd_spans self.now) at) }
        ensures inside { result ≤ length (from_place self.now.setting.config.atomic (bgnd_spans self.now) at) }
        ensures valid { 0 < result → IsValid self.now.setting.config.atomic (bgnd_spans self.now) at }
        ensures few { result ≤ 65536 }
    {
        groups_are_longest();
        let config = self.config();
        if config.bgnd.as_slice().is_empty() {
            return 0;
        }
        group_len(config.bgnd.as_slice(), config.atomic, config.cells, at)
    }

    // The group at a position.
    fn group_from(&self, at: Position) -> PassWalk
        requires pointed { IsPointed self.now.setting.config at }
        requires running { self.now.state ≡ State.Running at }
        ensures left { group_left result self.now ≡ group_at self.now at }
        ensures fits { IsPassWalk result self.now }
        ensures few { result.len ≤ 65536 }
        ensures taken { result.taken ≡ Taken.Runs }
    {
        self.is_sound();
        PassWalk {
            at,
            len: self.group_len_at(at),
            taken: Taken::Runs,
        }
    }

    // A tick looks at the state.
    fn enter_pass(&mut self) -> PassWalk
        ensures callee { self.new ≡ inside_of (row self.old MainFunction) self.old }
        ensures left { group_left result self.new ≡ work_in (row self.old MainFunction) }
        ensures fits { IsPassWalk result self.new }
        ensures few { result.len ≤ 65536 }
        ensures recalls { Recalls result.taken self.old }
    {
        self.is_sound();
        match self.state() {
            State::Init => {
                let at = or_start(None);
                self.set_state(State::Running { at });
                self.group_from(at)
            }
            State::Running { at } => self.group_from(at),
            State::Suspended { .. } | State::Aborted | State::Foreground { .. } => {
                no_group(Taken::Rests)
            }
            State::Uninit => no_group(Taken::Refused(Refusal::Uninit)),
        }
    }
}

impl Walk<Fls> for PassWalk {
    ghost use Rattle.std.specs.Prelude.{◌≡◌, ◌*◌, Option, ℕ, false, refl};
    ghost use Rattle.mt_blocks.specs.Slices.{Piece};
    ghost use Rattle.mt_fls.specs.declared.taken.Taken.{Taken};
    ghost use Rattle.mt_fls.specs.declared.pass_walk.PassWalk.{PassWalk};
    ghost use Rattle.mt_fls.specs.State.{FlsTst};
    ghost use Rattle.mt_fls.specs.Event.{of_pass, ticking};
    ghost use Rattle.mt_fls.specs.Walks.{IsPassWalk, Recalls, group_left, pass_handled, group_handled, same_shape};

    type Verdict = Option<u32>;

    type Name = ();

    ghost Piece = { Piece };

    ghost tests = { of_pass };

    ghost shape = { λ (f : FlsTst). f.setting.shape };

    ghost Fits = { IsPassWalk };

    ghost left = { group_left };

    ghost failed = { λ (w : PassWalk). false };

    ghost Origin = { Taken };

    ghost origin = { λ (w : PassWalk). w.taken };

    ghost Remembers = { Recalls };

    ghost call = { λ (w : PassWalk). tt };

    ghost running = { λ name. ticking };

    ghost most = { λ (w : PassWalk) (f : FlsTst). 2 * 64 * w.len };

    ghost longest = { 2 * 64 };

    fn clear(_name: &(), callee: &mut Fls) {
        callee.begin();
    }

    fn enter(_name: &(), callee: &mut Fls) -> PassWalk {
        callee.enter_pass()
    }

    fn has_next(&self, _callee: &Fls) -> bool {
        0 < self.len
    }

    fn stops(&self, callee: &Fls) -> bool {
        callee.mark
    }

    fn retries(&self, _callee: &Fls) -> u32 {
        0
    }

    fn attempt<P: Port>(&mut self, callee: &Fls, port: &mut P, _may: bool) -> Option<Option<u32>> {
        passes_go_on();
        Some(callee.compare_bgnd(port, self.at))
    }

    fn take(&mut self, callee: &mut Fls, verdict: Option<u32>) {
        passes_go_on();
        let at = self.at;
        self.at = callee.place_after(at);
        self.len -= 1;
        callee.take_bgnd(at, verdict);
    }

    fn leave(&self, _callee: &mut Fls) {}

    fn reply(&self, made: u32) -> Reply {
        reply_by(self.taken, made)
    }

    ghost same_tests = { λ name. refl };

    ghost same_table = { refl };

    ghost same_shape = { same_shape };

    ghost handled_fits = { pass_handled };

    ghost handled_left = { group_handled };

    ghost handled_most = { λ w f call fits. refl };
}
