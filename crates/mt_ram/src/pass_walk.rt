//! The walk of a tick.

ghost use Rattle.std.specs.Prelude.{◌≡◌, ◌≤◌, None};
ghost use Rattle.mt_blocks.specs.Slices.{IsValid, from_place};
ghost use Rattle.mt_blocks.specs.Groups.{group_len};
ghost use Rattle.mt_ram.specs.State.{set_of, spans_in};

use crate::running::{Decision, Entered};
use crate::state::{Ram, State};
use mt_blocks::{Position, group_len, groups_are_longest, passes_go_on};
use mt_port::Port;
use mt_seq::{Verdict, sequences_are_short};
use mt_window::{Refusal, Reply, Walk};

/// The group of a tick: where its next slice is, how many are left, and what was decided just after boundary 0.
#[derive(Drop)]
pub struct PassWalk {
    pub(crate) at: Position,
    pub(crate) len: u32,
    pub(crate) entered: Entered,
}

// A tick that tests nothing.
fn idle(decision: Decision) -> PassWalk
    ensures { result
        ≡ record {
          at = record { block = 0; offset = 0 };
          len = 0;
          entered = record { decision = decision; back = None };
        } }
{
    PassWalk {
        at: Position {
            block: 0,
            offset: 0,
        },
        len: 0,
        entered: Entered {
            decision,
            back: None,
        },
    }
}

impl Ram {
    // How many slices the group at a position has.
    fn slices_in_group(&self, at: Position) -> u32
        requires { IsValid (set_of self.now).atomic (spans_in self.now) at }
        ensures len { result ≡ group_len self.now.cells (from_place (set_of self.now).atomic (spans_in self.now) at) }
        ensures few { result ≤ 65536 }
    {
        let set = self.set();
        group_len(set.blocks.as_slice(), set.atomic, self.cells, at)
    }
}

impl Walk<Ram> for PassWalk {
    ghost use Rattle.std.specs.Prelude.{◌≡◌, ◌*◌, ℕ, take, false, refl};
    ghost use Rattle.std.proofs.Common.{ap};
    ghost use Rattle.mt_port.specs.declared.request.HandlerCall.{HandlerCall};
    ghost use Rattle.mt_blocks.specs.Slices.{Piece};
    ghost use Rattle.mt_ram.specs.declared.running.Entered.{Entered};
    ghost use Rattle.mt_ram.specs.declared.pass_walk.PassWalk.{PassWalk};
    ghost use Rattle.mt_ram.specs.State.{RamTst, Setting};
    ghost use Rattle.mt_ram.specs.Table.{MainFunction};
    ghost use Rattle.mt_ram.specs.Event.{of_pass, ticking};
    ghost use Rattle.mt_ram.specs.Walks.{IsBy};
    ghost use Rattle.mt_ram.specs.PassWalks.{IsPassWalk, left_in_pass, pass_handled, pass_handled_left};

    type Verdict = Verdict;

    type Name = ();

    ghost Piece = { Piece };

    ghost tests = { of_pass };

    ghost shape = { λ (r : RamTst). r.setting.shape };

    ghost Fits = { IsPassWalk };

    ghost left = { left_in_pass };

    ghost failed = { λ (w : PassWalk). false };

    ghost Origin = { Entered };

    ghost origin = { λ (w : PassWalk). w.entered };

    ghost Remembers = { IsBy MainFunction };

    ghost call = { λ w. tt };

    ghost running = { λ n. ticking };

    ghost most = { λ (w : PassWalk) (r : RamTst). 262 * 64 * w.len };

    ghost longest = { 262 * 64 };

    fn clear(_name: &(), callee: &mut Ram) {
        callee.begin();
    }

    fn enter(_name: &(), callee: &mut Ram) -> PassWalk {
        groups_are_longest();
        let _set = callee.set();
        match callee.state() {
            State::Running { at } => PassWalk {
                at,
                len: callee.slices_in_group(at),
                entered: Entered {
                    decision: Decision::Run,
                    back: None,
                },
            },
            State::Uninit => idle(Decision::Refuse(Refusal::Uninit)),
            State::Stopped | State::Suspended { .. } | State::Full | State::Partial { .. } => {
                idle(Decision::Rest)
            }
        }
    }

    fn has_next(&self, _callee: &Ram) -> bool {
        0 < self.len
    }

    fn stops(&self, callee: &Ram) -> bool {
        callee.mark
    }

    fn retries(&self, callee: &Ram) -> u32 {
        callee.set().retries
    }

    fn attempt<P: Port>(&mut self, callee: &Ram, port: &mut P, may: bool) -> Option<Verdict> {
        passes_go_on();
        sequences_are_short();
        callee.attempt(port, self.at, may)
    }

    fn take(&mut self, callee: &mut Ram, verdict: Verdict) {
        passes_go_on();
        sequences_are_short();
        let at = self.at;
        self.at = callee.place_after(at);
        self.len -= 1;
        callee.take_verdict(at, self.at, verdict);
    }

    fn leave(&self, _callee: &mut Ram) {}

    fn reply(&self, made: u32) -> Reply {
        self.entered.decision.reply(made)
    }

    ghost same_tests = { λ n. refl };

    ghost same_table = { refl };

    ghost same_shape = { λ a b e. ap (λ (s : Setting). s.shape) e };

    ghost handled_fits = { pass_handled };

    ghost handled_left = { λ w r call f. pass_handled_left w r call };

    ghost handled_most = { λ w r call f. refl };
}
