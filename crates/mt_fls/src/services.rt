//! The services of FlsTst.

ghost use Rattle.std.specs.Prelude.{◌≡◌};
ghost use Rattle.mt_fls.specs.Table.{Init, DeInit, Abort, Suspend, Resume, GetCurrentState, GetTestResultBgnd, GetTestResultFgnd, GetErrorDetails, GetVersionInfo, initialised, reply_to, after, shown_state};

use crate::state::{Back, Fls, State};
use mt_window::{Detail, Refusal, Reply, ShownState, TestResult, Value};

fn shown(state: State) -> ShownState
    ensures { result ≡ shown_state state }
{
    match state {
        State::Uninit => ShownState::Uninit,
        State::Init => ShownState::Init,
        State::Running { .. } => ShownState::Running,
        State::Suspended { .. } => ShownState::Suspended,
        State::Aborted => ShownState::Aborted,
        State::Foreground { back } => match back {
            Back::Init => ShownState::Init,
            Back::Running { .. } => ShownState::Running,
            Back::Suspended { .. } => ShownState::Suspended,
        },
    }
}

impl Fls {
    // Init, where it is taken.
    fn reset(&mut self)
        ensures { self.new ≡ initialised self.old }
    {
        self.state = State::Init;
        self.completed = None;
        self.result = TestResult::NotTested;
        self.failed = false;
        self.fgnd = TestResult::NotTested;
        self.detail = Detail::Nothing;
    }

    /// Goes to INIT. Identifiers, results and details are reset.
    pub fn init(&mut self) -> Reply
        ensures reply { result ≡ reply_to self.old Init }
        ensures next { self.new ≡ after self.old Init }
        ensures setting { self.new.setting ≡ self.old.setting }
    {
        match self.state {
            State::Uninit | State::Aborted => {
                self.reset();
                Reply::Done
            }
            _ => Reply::Refused(Refusal::Status),
        }
    }

    /// Goes to UNINIT. The position and the unfinished interval are dropped.
    pub fn de_init(&mut self) -> Reply
        ensures reply { result ≡ reply_to self.old DeInit }
        ensures next { self.new ≡ after self.old DeInit }
        ensures setting { self.new.setting ≡ self.old.setting }
    {
        match self.state {
            State::Uninit => Reply::Refused(Refusal::Uninit),
            _ => {
                self.state = State::Uninit;
                self.failed = false;
                Reply::Done
            }
        }
    }

    /// Goes to ABORTED, which only Init and DeInit leave. The position and the unfinished interval are dropped.
    pub fn abort(&mut self) -> Reply
        ensures reply { result ≡ reply_to self.old Abort }
        ensures next { self.new ≡ after self.old Abort }
        ensures setting { self.new.setting ≡ self.old.setting }
    {
        match self.state {
            State::Uninit => Reply::Refused(Refusal::Uninit),
            State::Init | State::Running { .. } | State::Suspended { .. } => {
                self.state = State::Aborted;
                self.failed = false;
                self.mark = true;
                Reply::Done
            }
            _ => Reply::Refused(Refusal::Status),
        }
    }

    /// Suspends the pass. The position is kept, and so is the interval under way.
    pub fn suspend(&mut self) -> Reply
        ensures reply { result ≡ reply_to self.old Suspend }
        ensures next { self.new ≡ after self.old Suspend }
        ensures setting { self.new.setting ≡ self.old.setting }
    {
        match self.state {
            State::Uninit => Reply::Refused(Refusal::Uninit),
            State::Running { at } => {
                self.state = State::Suspended { at };
                self.mark = true;
                Reply::Done
            }
            _ => Reply::Refused(Refusal::Status),
        }
    }

    /// Goes on with a suspended pass.
    pub fn resume(&mut self) -> Reply
        ensures reply { result ≡ reply_to self.old Resume }
        ensures next { self.new ≡ after self.old Resume }
        ensures setting { self.new.setting ≡ self.old.setting }
    {
        match self.state {
            State::Uninit => Reply::Refused(Refusal::Uninit),
            State::Suspended { at } => {
                self.state = State::Running { at };
                Reply::Done
            }
            _ => Reply::Refused(Refusal::Status),
        }
    }

    /// The shown state. Inside StartFgnd it is the state in which that was taken.
    pub fn get_current_state(&self) -> Reply
        ensures { result ≡ reply_to self.now GetCurrentState }
    {
        Reply::Value(Value::State(shown(self.state)))
    }

    /// The identifier and the result of the last completed interval; before the first one there is no identifier, and
    /// the result is NOT_TESTED. The interval under way is never shown.
    pub fn get_test_result_bgnd(&self) -> Reply
        ensures { result ≡ reply_to self.now GetTestResultBgnd }
    {
        match self.state {
            State::Uninit => Reply::Refused(Refusal::Uninit),
            _ => Reply::Value(Value::Interval {
                id: self.completed,
                result: self.result,
            }),
        }
    }

    /// The result of the last foreground test: NOT_TESTED before the first, then OK or NOT_OK.
    pub fn get_test_result_fgnd(&self) -> Reply
        ensures { result ≡ reply_to self.now GetTestResultFgnd }
    {
        match self.state {
            State::Uninit => Reply::Refused(Refusal::Uninit),
            _ => Reply::Value(Value::Result(self.fgnd)),
        }
    }

    /// Where the latest failing sequence since Init found its first difference.
    pub fn get_error_details(&self) -> Reply
        ensures { result ≡ reply_to self.now GetErrorDetails }
    {
        match self.state {
            State::Uninit => Reply::Refused(Refusal::Uninit),
            _ => Reply::Value(Value::Details(self.detail)),
        }
    }

    /// The version of the module.
    pub fn get_version_info(&self) -> Reply
        ensures { result ≡ reply_to self.now GetVersionInfo }
    {
        Reply::Value(Value::Version)
    }
}
