//! The state of FlsTst.

ghost use Rattle.std.specs.Prelude.{◌≡◌, None, false};
ghost use Rattle.mt_port.specs.Board.{IsWithinLimits};
ghost use Rattle.mt_window.specs.declared.reply.TestResult.TheVariants.{NotTested};
ghost use Rattle.mt_window.specs.declared.reply.Detail.TheVariants.{Nothing};
ghost use Rattle.mt_blocks.specs.Slices.{AreSpans};
ghost use Rattle.mt_blocks.specs.Accepted.{IsAcceptedFls, flash_spans};
ghost use Rattle.mt_fls.specs.State.{FlsTst, IsFls, IsPlace};

use mt_blocks::{FlsConfig, Position};
use mt_port::Shape;
use mt_window::{Detail, TestResult};
use std::marker::Model;

/// The state in which a foreground test was taken, and to which it goes back.
#[derive(Clone, Copy, Debug, PartialEq, Eq)]
pub enum Back {
    Init,
    Running { at: Position },
    Suspended { at: Position },
}

/// What the module does. A running or suspended pass has the position of its next slice; where there is no background
/// block, it is the start of a pass and names no slice. The last is the state inside StartFgnd.
#[derive(Clone, Copy, Debug, PartialEq, Eq)]
pub enum State {
    Uninit,
    Init,
    Running { at: Position },
    Suspended { at: Position },
    Aborted,
    Foreground { back: Back },
}

/// The module FlsTst.
#[derive(Drop)]
pub struct Fls {
    pub(crate) config: FlsConfig,
    pub(crate) shape: Shape,
    pub(crate) state: State,
    pub(crate) completed: Option<u32>,
    pub(crate) result: TestResult,
    pub(crate) failed: bool,
    pub(crate) fgnd: TestResult,
    pub(crate) detail: Detail,
    pub(crate) mark: bool,
}

impl Model for Fls {
    ghost use Rattle.mt_fls.specs.State.{FlsTst, IsFls};

    ghost Value = { FlsTst };

    ghost view = { λ f. record {
      setting = record { config = f.config; shape = f.shape };
      state = f.state;
      completed = f.completed;
      result = f.result;
      failed = f.failed;
      fgnd = f.fgnd;
      detail = f.detail;
      mark = f.mark;
    } };

    ghost invariant = { λ f. IsFls (record {
      setting = record { config = f.config; shape = f.shape };
      state = f.state;
      completed = f.completed;
      result = f.result;
      failed = f.failed;
      fgnd = f.fgnd;
      detail = f.detail;
      mark = f.mark;
    }) };
}

impl Fls {
    /// The module in UNINIT.
    pub fn new(config: FlsConfig, shape: Shape) -> Fls
        requires { IsAcceptedFls shape config }
        ensures { result ≡ record {
          setting = record { config = config; shape = shape };
          state = State.Uninit;
          completed = None;
          result = NotTested;
          failed = false;
          fgnd = NotTested;
          detail = Nothing;
          mark = false;
        } }
    {
        Fls {
            config,
            shape,
            state: State::Uninit,
            completed: None,
            result: TestResult::NotTested,
            failed: false,
            fgnd: TestResult::NotTested,
            detail: Detail::Nothing,
            mark: false,
        }
    }

    /// The configuration.
    pub(crate) fn config(&self) -> &FlsConfig
        ensures config { result.now ≡ self.now.setting.config }
        ensures accepted { IsAcceptedFls self.now.setting.shape result.now }
        ensures limits { IsWithinLimits self.now.setting.shape }
        ensures bgnd { AreSpans result.now.atomic (flash_spans result.now.bgnd) }
        ensures fgnd { AreSpans result.now.atomic (flash_spans result.now.fgnd) }
    {
        &self.config
    }

    /// The state.
    pub(crate) fn state(&self) -> State
        ensures state { result ≡ self.now.state }
        ensures place { IsPlace self.now.setting.config result }
    {
        self.state
    }

    /// Changes the state alone.
    pub(crate) fn set_state(&mut self, state: State)
        requires { IsPlace self.old.setting.config state }
        ensures state { self.new ≡ record self.old { state = state } }
        ensures accepted { IsAcceptedFls self.new.setting.shape self.new.setting.config }
    {
        self.state = state;
    }

    /// What holds of every module. It does nothing; to look at a field lets the proof see it.
    pub(crate) fn is_sound(&self)
        ensures { IsFls self.now }
    {
        let _state = self.state;
    }

    /// A running event begins.
    pub(crate) fn begin(&mut self)
        ensures { self.new ≡ record self.old { mark = false } }
    {
        self.mark = false;
    }
}
