//! The state of RamTst.

ghost use Rattle.std.specs.Prelude.{◌≡◌, ◌<◌, ◌≤◌, false, length, replicate};
ghost use Rattle.mt_window.specs.declared.reply.TestResult.TheVariants.{NotTested};
ghost use Rattle.mt_port.specs.Board.{IsWithinLimits};
ghost use Rattle.mt_blocks.specs.Slices.{AreSpans};
ghost use Rattle.mt_blocks.specs.Accepted.{IsAcceptedRam, IsAcceptedSet, set_at, spans_of};
ghost use Rattle.mt_ram.specs.State.{RamTst, IsPlace, IsFailureOfPass, set_of};
ghost use Rattle.mt_ram.specs.Table.{selected};

use arrayvec::ArrayVec;
use mt_blocks::{ParamSet, Position, RamConfig};
use mt_port::Shape;
use mt_window::TestResult;
use std::marker::Model;

/// What the module does. A running or suspended pass has the position of its next slice. The last two are the states
/// inside RunFullTest and RunPartialTest; a partial test goes back to the suspended pass whose position it has, or to STOPPED.
#[derive(Clone, Copy, Debug, PartialEq, Eq)]
pub enum State {
    Uninit,
    Stopped,
    Running { at: Position },
    Suspended { at: Position },
    Full,
    Partial { back: Option<Position> },
}

/// The module RamTst.
#[derive(Drop)]
pub struct Ram {
    pub(crate) config: RamConfig,
    pub(crate) shape: Shape,
    pub(crate) state: State,
    pub(crate) selected: u32,
    pub(crate) cells: u32,
    pub(crate) results: ArrayVec<TestResult, 64>,
    pub(crate) failed: bool,
    pub(crate) mark: bool,
}

impl Model for Ram {
    ghost use Rattle.mt_ram.specs.State.{RamTst, IsRam};

    ghost Value = { RamTst };

    ghost view = { λ r. record {
      setting = record { config = r.config; shape = r.shape };
      state = r.state;
      selected = r.selected;
      cells = r.cells;
      results = r.results.items;
      failed = r.failed;
      mark = r.mark;
    } };

    ghost invariant = { λ r. IsRam (record {
      setting = record { config = r.config; shape = r.shape };
      state = r.state;
      selected = r.selected;
      cells = r.cells;
      results = r.results.items;
      failed = r.failed;
      mark = r.mark;
    }) };
}

/// No result yet, for so many blocks.
pub(crate) fn no_results(blocks: usize) -> ArrayVec<TestResult, 64>
    requires { blocks ≤ 64 }
    ensures { result.items ≡ replicate blocks NotTested }
{
    let mut results = ArrayVec::new();
    for _k in 0..blocks {
        results.push(TestResult::NotTested);
    }
    results
}

impl Ram {
    /// The module in UNINIT.
    pub fn new(config: RamConfig, shape: Shape) -> Ram
        requires { IsAcceptedRam shape config }
        ensures { result ≡ record {
          setting = record { config = config; shape = shape };
          state = State.Uninit;
          selected = 0;
          cells = (set_at config.sets 0).cells;
          results = replicate (length (set_at config.sets 0).blocks) NotTested;
          failed = false;
          mark = false;
        } }
    {
        let set = &config.sets.as_slice()[0];
        let cells = set.cells;
        let results = no_results(set.blocks.as_slice().len());
        Ram {
            config,
            shape,
            state: State::Uninit,
            selected: 0,
            cells,
            results,
            failed: false,
            mark: false,
        }
    }

    /// The selected set.
    pub(crate) fn set(&self) -> &ParamSet
        ensures set { result.now ≡ set_of self.now }
        ensures accepted { IsAcceptedSet self.now.setting.shape result.now }
        ensures limits { IsWithinLimits self.now.setting.shape }
        ensures spans { AreSpans result.now.atomic (spans_of result.now.blocks) }
    {
        &self.config.sets.as_slice()[self.selected as usize]
    }

    /// How many sets there are.
    pub(crate) fn set_count(&self) -> usize
        ensures { result ≡ length self.now.setting.config.sets }
    {
        self.config.sets.as_slice().len()
    }

    /// The state.
    pub(crate) fn state(&self) -> State
        ensures state { result ≡ self.now.state }
        ensures place { IsPlace (set_of self.now) result }
        ensures failure { IsFailureOfPass result self.now.failed }
    {
        self.state
    }

    /// The module in STOPPED, with that set.
    pub(crate) fn select(&mut self, set: u32)
        requires set { set < length self.old.setting.config.sets }
        requires failure { self.old.failed ≡ false }
        ensures { self.new ≡ record (selected self.old set) { state = State.Stopped } }
    {
        let chosen = &self.config.sets.as_slice()[set as usize];
        let cells = chosen.cells;
        let results = no_results(chosen.blocks.as_slice().len());
        self.state = State::Stopped;
        self.selected = set;
        self.cells = cells;
        self.results = results;
    }
}
