//! The services of RamTst.

ghost use Rattle.std.specs.Prelude.{◌≡◌};
ghost use Rattle.mt_window.specs.Rows.{reply_in};
ghost use Rattle.mt_ram.specs.Table.{Init, DeInit, Allow, Stop, Suspend, Resume, SelectAlgParams, ChangeNumberOfTestedCells, GetTestResultPerBlock, GetTestResult, GetAlgParams, GetTestAlgorithm, GetNumberOfTestedCells, GetExecutionStatus, GetVersionInfo, reply_to, telling, after, shown_state, name_of};

use crate::result::overall_of;
use crate::state::{Ram, State};
use mt_blocks::Position;
use mt_plan::Algorithm;
use mt_window::{AlgorithmName, Refusal, Reply, ShownState, Value};

fn shown(state: State) -> ShownState
    ensures { result ≡ shown_state state }
{
    match state {
        State::Uninit => ShownState::Uninit,
        State::Stopped => ShownState::Stopped,
        State::Running { .. } => ShownState::Running,
        State::Suspended { .. } => ShownState::Suspended,
        State::Full => ShownState::Running,
        State::Partial { .. } => ShownState::Running,
    }
}

fn name(algorithm: &Algorithm) -> AlgorithmName
    ensures { result ≡ name_of algorithm.now }
{
    match algorithm {
        Algorithm::Checkerboard => AlgorithmName::Checkerboard,
        Algorithm::March(_) => AlgorithmName::March,
        Algorithm::WalkPath => AlgorithmName::WalkPath,
        Algorithm::Galpat => AlgorithmName::Galpat,
        Algorithm::TransparentGalpat => AlgorithmName::TransparentGalpat,
    }
}

impl Ram {
    /// Selects the first set, and goes to STOPPED.
    pub fn init(&mut self) -> Reply
        ensures reply { result ≡ reply_to self.old Init }
        ensures next { self.new ≡ after self.old Init }
        ensures setting { self.new.setting ≡ self.old.setting }
    {
        match self.state {
            State::Uninit => {
                self.select(0);
                Reply::Done
            }
            _ => Reply::Refused(Refusal::Status),
        }
    }

    /// Goes to UNINIT. The position is dropped.
    pub fn de_init(&mut self) -> Reply
        ensures reply { result ≡ reply_to self.old DeInit }
        ensures next { self.new ≡ after self.old DeInit }
        ensures setting { self.new.setting ≡ self.old.setting }
    {
        match self.state {
            State::Uninit => Reply::Refused(Refusal::Uninit),
            _ => {
                self.state = State::Uninit;
                self.failed = false;
                Reply::Done
            }
        }
    }

    /// Begins a pass at its start.
    pub fn allow(&mut self) -> Reply
        ensures reply { result ≡ reply_to self.old Allow }
        ensures next { self.new ≡ after self.old Allow }
        ensures setting { self.new.setting ≡ self.old.setting }
    {
        match self.state {
            State::Uninit => Reply::Refused(Refusal::Uninit),
            State::Stopped => {
                self.state = State::Running {
                    at: Position {
                        block: 0,
                        offset: 0,
                    },
                };
                Reply::Done
            }
            _ => Reply::Refused(Refusal::Status),
        }
    }

    /// Ends the pass. The position is dropped.
    pub fn stop(&mut self) -> Reply
        ensures reply { result ≡ reply_to self.old Stop }
        ensures next { self.new ≡ after self.old Stop }
        ensures setting { self.new.setting ≡ self.old.setting }
    {
        match self.state {
            State::Uninit => Reply::Refused(Refusal::Uninit),
            State::Running { .. } | State::Suspended { .. } => {
                self.state = State::Stopped;
                self.failed = false;
                self.mark = true;
                Reply::Done
            }
            _ => Reply::Refused(Refusal::Status),
        }
    }

    /// Suspends the pass. The position is kept.
    pub fn suspend(&mut self) -> Reply
        ensures reply { result ≡ reply_to self.old Suspend }
        ensures next { self.new ≡ after self.old Suspend }
        ensures setting { self.new.setting ≡ self.old.setting }
    {
        match self.state {
            State::Uninit => Reply::Refused(Refusal::Uninit),
            State::Running { at } => {
                self.state = State::Suspended { at };
                self.mark = true;
                Reply::Done
            }
            _ => Reply::Refused(Refusal::Status),
        }
    }

    /// Goes on with a suspended pass.
    pub fn resume(&mut self) -> Reply
        ensures reply { result ≡ reply_to self.old Resume }
        ensures next { self.new ≡ after self.old Resume }
        ensures setting { self.new.setting ≡ self.old.setting }
    {
        match self.state {
            State::Uninit => Reply::Refused(Refusal::Uninit),
            State::Suspended { at } => {
                self.state = State::Running { at };
                Reply::Done
            }
            _ => Reply::Refused(Refusal::Status),
        }
    }

    /// Selects a set by its number, counted from 0.
    pub fn select_alg_params(&mut self, set: u32) -> Reply
        ensures reply { result ≡ reply_to self.old (SelectAlgParams set) }
        ensures next { self.new ≡ after self.old (SelectAlgParams set) }
        ensures setting { self.new.setting ≡ self.old.setting }
    {
        match self.state {
            State::Uninit => Reply::Refused(Refusal::Uninit),
            State::Stopped => {
                if (set as usize) < self.set_count() {
                    self.select(set);
                    Reply::Done
                } else {
                    Reply::Refused(Refusal::Range)
                }
            }
            _ => Reply::Refused(Refusal::Status),
        }
    }

    /// Changes how many words a tick may test: at least a whole slice, and at most 65,536.
    pub fn change_number_of_tested_cells(&mut self, cells: u32) -> Reply
        ensures reply { result ≡ reply_to self.old (ChangeNumberOfTestedCells cells) }
        ensures next { self.new ≡ after self.old (ChangeNumberOfTestedCells cells) }
        ensures setting { self.new.setting ≡ self.old.setting }
    {
        match self.state {
            State::Uninit => Reply::Refused(Refusal::Uninit),
            State::Stopped => {
                if self.set().atomic <= cells && cells <= 65536 {
                    self.cells = cells;
                    Reply::Done
                } else {
                    Reply::Refused(Refusal::Range)
                }
            }
            _ => Reply::Refused(Refusal::Status),
        }
    }

    /// The shown state.
    pub fn get_execution_status(&self) -> Reply
        ensures { result ≡ reply_to self.now GetExecutionStatus }
    {
        Reply::Value(Value::State(shown(self.state)))
    }

    /// The overall result.
    pub fn get_test_result(&self) -> Reply
        ensures { result ≡ reply_to self.now GetTestResult }
    {
        match self.state {
            State::Uninit => Reply::Refused(Refusal::Uninit),
            _ => Reply::Value(Value::Result(overall_of(&self.results))),
        }
    }

    /// The result of a block of the selected set, by its number, counted from 0.
    pub fn get_test_result_per_block(&self, block: u32) -> Reply
        ensures { result ≡ reply_to self.now (GetTestResultPerBlock block) }
    {
        match self.state {
            State::Uninit => Reply::Refused(Refusal::Uninit),
            _ => self.tell_result(block),
        }
    }

    /// The number of the selected set.
    pub fn get_alg_params(&self) -> Reply
        ensures { result ≡ reply_to self.now GetAlgParams }
    {
        match self.state {
            State::Uninit => Reply::Refused(Refusal::Uninit),
            _ => Reply::Value(Value::Number(self.selected)),
        }
    }

    /// The name of the selected set's algorithm.
    pub fn get_test_algorithm(&self) -> Reply
        ensures { result ≡ reply_to self.now GetTestAlgorithm }
    {
        match self.state {
            State::Uninit => Reply::Refused(Refusal::Uninit),
            _ => Reply::Value(Value::Algorithm(name(&self.set().alg))),
        }
    }

    /// How many words a tick may test.
    pub fn get_number_of_tested_cells(&self) -> Reply
        ensures { result ≡ reply_to self.now GetNumberOfTestedCells }
    {
        match self.state {
            State::Uninit => Reply::Refused(Refusal::Uninit),
            _ => Reply::Value(Value::Number(self.cells)),
        }
    }

    /// The version of the module.
    pub fn get_version_info(&self) -> Reply
        ensures { result ≡ reply_to self.now GetVersionInfo }
    {
        Reply::Value(Value::Version)
    }

    // A block's result, where there is such a block.
    fn tell_result(&self, block: u32) -> Reply
        ensures { (made : _) → result ≡ reply_in (telling self.now block) made }
    {
        if (block as usize) < self.results.len() {
            Reply::Value(Value::Result(self.results[block as usize]))
        } else {
            Reply::Refused(Refusal::Range)
        }
    }
}
