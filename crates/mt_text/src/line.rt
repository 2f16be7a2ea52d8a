//! Lines, as they are read and written.

use arrayvec::ArrayVec;
use mt_fault::{Fault, Spot};
use mt_port::{AppOp, Request};

/// A call of RamTst on a line, named after the services of AUTOSAR SWS RAM Test. A number is a block's, a parameter
/// set's or a number of cells; whether there is such a block or set is the module's to judge.
#[derive(Clone, Copy, Debug, PartialEq, Eq)]
pub enum RamCall {
    Init,
    DeInit,
    Stop,
    Allow,
    Suspend,
    Resume,
    GetExecutionStatus,
    GetTestResult,
    GetTestResultPerBlock(u32),
    GetAlgParams,
    GetTestAlgorithm,
    GetNumberOfTestedCells,
    SelectAlgParams(u32),
    ChangeNumberOfTestedCells(u32),
    RunFullTest,
    RunPartialTest(u32),
    GetVersionInfo,
}

/// A call of FlsTst on a line, named after the services of AUTOSAR SWS Flash Test. A number is a foreground block's.
#[derive(Clone, Copy, Debug, PartialEq, Eq)]
pub enum FlsCall {
    Init,
    DeInit,
    StartFgnd(u32),
    Abort,
    Suspend,
    Resume,
    GetCurrentState,
    GetTestResultBgnd,
    GetTestResultFgnd,
    GetErrorDetails,
    GetVersionInfo,
}

/// What a line asks for. `Nothing` is an empty line or a comment; a tick is the main function of its module; `Burn` sets
/// a flash word and `Flip` inverts one bit of it.
#[derive(Clone, Copy, Debug, PartialEq, Eq)]
pub enum Event {
    Nothing,
    Ram(RamCall),
    Fls(FlsCall),
    TickRam,
    TickFls,
    App(AppOp),
    Inject(Fault),
    Heal,
    Burn { addr: u32, word: u64 },
    Flip(Spot),
}

/// A line: its event, and the interrupt requests that come while it runs, in the order of their offsets.
#[derive(Drop)]
pub struct Line {
    pub event: Event,
    pub requests: ArrayVec<Request, 16>,
}

/// The rules of script lines, in the order of their numbers 1 to 9.
#[derive(Clone, Copy, Debug, PartialEq, Eq)]
pub enum LineKind {
    Spelling,
    Number,
    Address,
    WordTooWide,
    OffsetsFall,
    TooManyRequests,
    TooManyOps,
    NotInHandler,
    FaultRefused,
}

impl LineKind {
    ghost use Rattle.std.specs.Prelude.{◌≡◌};
    ghost use Rattle.mt_text.specs.TokenRules.{kind_number};

    /// The number of the rule.
    pub fn number(self) -> u8
        ensures { result ≡ kind_number self }
    {
        match self {
            LineKind::Spelling => 1,
            LineKind::Number => 2,
            LineKind::Address => 3,
            LineKind::WordTooWide => 4,
            LineKind::OffsetsFall => 5,
            LineKind::TooManyRequests => 6,
            LineKind::TooManyOps => 7,
            LineKind::NotInHandler => 8,
            LineKind::FaultRefused => 9,
        }
    }
}

/// The least rule that the first wrong token breaks, and the place of that token's first byte, counted from 1. Where
/// the line ends too early it is `Spelling` at the line's length plus 1.
#[derive(Clone, Copy, Debug, PartialEq, Eq)]
pub struct LineRefusal {
    pub kind: LineKind,
    pub place: u32,
}
