//! Answers of the modules and of the memory.

/// The states of both modules, as their services show them.
#[derive(Clone, Copy, Debug, PartialEq, Eq)]
pub enum ShownState {
    Uninit,
    Stopped,
    Running,
    Suspended,
    Init,
    Aborted,
}

/// What is known of a block, an interval or all blocks.
#[derive(Clone, Copy, Debug, PartialEq, Eq)]
pub enum TestResult {
    NotTested,
    Ok,
    NotOk,
    Undefined,
}

impl Default for TestResult {
    ghost use Rattle.std.specs.Prelude.{◌≡◌};
    ghost use Rattle.mt_window.specs.declared.reply.TestResult.{TestResult};

    ghost is_default = { λ r. r ≡ TestResult.NotTested };

    fn default() -> TestResult {
        TestResult::NotTested
    }
}

/// The algorithms, by name alone.
#[derive(Clone, Copy, Debug, PartialEq, Eq)]
pub enum AlgorithmName {
    Checkerboard,
    March,
    WalkPath,
    Galpat,
    TransparentGalpat,
}

/// Where FlsTst last found a difference: the block's number in its list, and the first flash address that differed.
#[derive(Clone, Copy, Debug, PartialEq, Eq)]
pub enum Detail {
    Nothing,
    Bgnd { block: u32, addr: u32 },
    Fgnd { block: u32, addr: u32 },
}

/// What a service or an operation answers beside "done".
#[derive(Clone, Copy, Debug, PartialEq, Eq)]
pub enum Value {
    Word(u64),
    Number(u32),
    State(ShownState),
    Result(TestResult),
    Algorithm(AlgorithmName),
    Interval { id: Option<u32>, result: TestResult },
    Details(Detail),
    Version,
}

/// Why a service is refused: an uninitialised module, a wrong state, an argument out of range.
#[derive(Clone, Copy, Debug, PartialEq, Eq)]
pub enum Refusal {
    Uninit,
    Status,
    Range,
}

/// The reply to one call or operation. `Ran` has the number of test accesses; `Present` is that of a refused injection alone.
#[derive(Clone, Copy, Debug, PartialEq, Eq)]
pub enum Reply {
    Done,
    Ran(u32),
    Value(Value),
    Refused(Refusal),
    Present,
}
