//! A module under a script.

ghost use Rattle.std.specs.Prelude.{◌≡◌, [], false};
ghost use Rattle.mt_port.specs.declared.board.Shape.{Shape};
ghost use Rattle.mt_port.specs.Board.{Logs};
ghost use Rattle.mt_window.specs.Serving.{scene, IsReady as IsReadyToServe};
ghost use Rattle.mt_window.specs.Events.{event as event_of, event_touches};
ghost use Rattle.mt_machine.specs.Inner.Events.{Calls, IsTaken};

use mt_fls::Fls;
use mt_port::Bench;
use mt_ram::Ram;
use mt_text::{FlsCall, RamCall};
use mt_window::{Callee, EventLog, Reply};

/// What comes of a call of a module: a reply at once, or a call that runs tests.
#[derive(Clone, Copy, Debug, PartialEq, Eq)]
pub enum Called<R> {
    Replied(Reply),
    Runs(R),
}

/// A module as a script sees it.
pub trait Driven: Callee {
    /// A call on a line.
    type Call;

    /// A call that runs tests.
    type Running;

    /// A slice, and its verdict.
    ghost Piece: { Type 0 };

    ghost Verdict: { Type 0 };

    /// What its calls do.
    ghost calls: { Calls Self Self.Call Self.Running Piece Verdict };

    /// The shape of the board that the module is set for.
    ghost shape: { Self → Shape };

    /// Takes a call. One that runs tests is not begun.
    fn take(&mut self, call: Self::Call) -> Called<Self::Running>
        ensures taken { IsTaken calls result call self.old self.new }
        ensures setting { Self.setting self.new ≡ Self.setting self.old };

    /// A call that runs tests, on a board whose event has begun.
    fn run<B: Bench>(&mut self, board: &mut B, call: Self::Running, log: &mut EventLog) -> Reply
        requires ready { IsReadyToServe Self.kind (B.state board.old) log.old }
        requires shape { (B.state board.old).shape ≡ shape self.old }
        requires start { (B.state board.old).count ≡ 0 }
        ensures event { record { after = scene (B.state board.new) self.new log.new; reply = result }
            ≡ event_of ((calls).events call) (scene (B.state board.old) self.old log.old) }
        ensures tape { Logs (B.tape board.old) (B.tape board.new)
            (event_touches ((calls).events call) (scene (B.state board.old) self.old log.old)) }
        ensures setting { Self.setting self.new ≡ Self.setting self.old }
        ensures shape { (B.state board.new).shape ≡ (B.state board.old).shape }
        ensures none { (B.state board.new).left ≡ [] }
        ensures free { (B.state board.new).held ≡ false };

    /// The shape is part of the setting.
    ghost same_shape: { (a : Self) (b : Self) → Self.Callee.setting a ≡ Self.Callee.setting b → shape a ≡ shape b };
}

/// The calls of RamTst that run tests.
#[derive(Clone, Copy, Debug, PartialEq, Eq)]
pub enum Running {
    Tick,
    Full,
    Partial(u32),
}

impl Driven for Ram {
    ghost use Rattle.std.specs.Prelude.{◌≡◌};
    ghost use Rattle.std.proofs.Common.{ap};
    ghost use Rattle.mt_seq.specs.declared.sequence.Verdict.{Verdict};
    ghost use Rattle.mt_blocks.specs.Slices.{Piece};
    ghost use Rattle.mt_ram.specs.State.{RamTst, Setting};
    ghost use Rattle.mt_machine.specs.Inner.Events.{ram_calls};

    type Call = RamCall;

    type Running = Running;

    ghost Piece = { Piece };

    ghost Verdict = { Verdict };

    ghost calls = { ram_calls };

    ghost shape = { λ (r : RamTst). r.setting.shape };

    ghost same_shape = { λ a b e. ap (λ (s : Setting). s.shape) e };

    #[tactic(auto, using(crate::proofs::Services::stays_result, crate::proofs::Services::stays_per_block, crate::proofs::Services::stays_params, crate::proofs::Services::stays_algorithm, crate::proofs::Services::stays_cells))]
    fn take(&mut self, call: RamCall) -> Called<Running> {
        match call {
            RamCall::Init => Called::Replied(self.init()),
            RamCall::DeInit => Called::Replied(self.de_init()),
            RamCall::Stop => Called::Replied(self.stop()),
            RamCall::Allow => Called::Replied(self.allow()),
            RamCall::Suspend => Called::Replied(self.suspend()),
            RamCall::Resume => Called::Replied(self.resume()),
            RamCall::GetExecutionStatus => Called::Replied(self.get_execution_status()),
            RamCall::GetTestResult => Called::Replied(self.get_test_result()),
            RamCall::GetTestResultPerBlock(block) => {
                Called::Replied(self.get_test_result_per_block(block))
            }
            RamCall::GetAlgParams => Called::Replied(self.get_alg_params()),
            RamCall::GetTestAlgorithm => Called::Replied(self.get_test_algorithm()),
            RamCall::GetNumberOfTestedCells => Called::Replied(self.get_number_of_tested_cells()),
            RamCall::SelectAlgParams(set) => Called::Replied(self.select_alg_params(set)),
            RamCall::ChangeNumberOfTestedCells(cells) => {
                Called::Replied(self.change_number_of_tested_cells(cells))
            }
            RamCall::GetVersionInfo => Called::Replied(self.get_version_info()),
            RamCall::RunFullTest => Called::Runs(Running::Full),
            RamCall::RunPartialTest(block) => Called::Runs(Running::Partial(block)),
        }
    }

    fn run<B: Bench>(&mut self, board: &mut B, call: Running, log: &mut EventLog) -> Reply {
        match call {
            Running::Tick => self.tick(board, log),
            Running::Full => self.run_full(board, log),
            Running::Partial(block) => self.run_partial(board, log, block),
        }
    }
}

/// The calls of FlsTst that run tests.
#[derive(Clone, Copy, Debug, PartialEq, Eq)]
pub enum FlsRunning {
    Tick,
    Foreground(u32),
}

impl Driven for Fls {
    ghost use Rattle.std.specs.Prelude.{ℕ, ◌≡◌};
    ghost use Rattle.std.proofs.Common.{ap};
    ghost use Rattle.std.specs.declared.option.Option.{Option};
    ghost use Rattle.mt_blocks.specs.Slices.{Piece};
    ghost use Rattle.mt_fls.specs.State.{FlsTst, Setting};
    ghost use Rattle.mt_machine.specs.Inner.Events.{fls_calls};

    type Call = FlsCall;

    type Running = FlsRunning;

    ghost Piece = { Piece };

    ghost Verdict = { Option ℕ };

    ghost calls = { fls_calls };

    ghost shape = { λ (f : FlsTst). f.setting.shape };

    ghost same_shape = { λ a b e. ap (λ (s : Setting). s.shape) e };

    #[tactic(auto, using(crate::proofs::Services::stays_bgnd, crate::proofs::Services::stays_fgnd, crate::proofs::Services::stays_details))]
    fn take(&mut self, call: FlsCall) -> Called<FlsRunning> {
        match call {
            FlsCall::Init => Called::Replied(self.init()),
            FlsCall::DeInit => Called::Replied(self.de_init()),
            FlsCall::Abort => Called::Replied(self.abort()),
            FlsCall::Suspend => Called::Replied(self.suspend()),
            FlsCall::Resume => Called::Replied(self.resume()),
            FlsCall::GetCurrentState => Called::Replied(self.get_current_state()),
            FlsCall::GetTestResultBgnd => Called::Replied(self.get_test_result_bgnd()),
            FlsCall::GetTestResultFgnd => Called::Replied(self.get_test_result_fgnd()),
            FlsCall::GetErrorDetails => Called::Replied(self.get_error_details()),
            FlsCall::GetVersionInfo => Called::Replied(self.get_version_info()),
            FlsCall::StartFgnd(block) => Called::Runs(FlsRunning::Foreground(block)),
        }
    }

    fn run<B: Bench>(&mut self, board: &mut B, call: FlsRunning, log: &mut EventLog) -> Reply {
        match call {
            FlsRunning::Tick => self.tick(board, log),
            FlsRunning::Foreground(block) => self.start_fgnd(board, log, block),
        }
    }
}
