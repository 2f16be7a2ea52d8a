//! FlsTst as handlers see it.

use crate::state::Fls;
use mt_port::HandlerCall;
use mt_window::{Callee, Reply};

impl Callee for Fls {
    ghost use Rattle.mt_port.specs.declared.request.Module.TheVariants.{FlsTst as Itself};
    ghost use Rattle.mt_fls.specs.State.{FlsTst, Setting};
    ghost use Rattle.mt_fls.specs.Table.{fls_table};
    ghost use Rattle.mt_fls.specs.Kept.{handlers_leave_setting};

    ghost kind = { Itself };

    ghost table = { fls_table };

    ghost Setting = { Setting };

    ghost setting = { λ (f : FlsTst). f.setting };

    #[tactic(auto, unfolding(crate::specs::Table::fls_table))]
    fn call(&mut self, call: HandlerCall) -> Reply {
        match call {
            HandlerCall::FlsSuspend => self.suspend(),
            HandlerCall::FlsResume => self.resume(),
            HandlerCall::FlsAbort => self.abort(),
            HandlerCall::FlsGetCurrentState => self.get_current_state(),
            HandlerCall::FlsGetTestResultBgnd => self.get_test_result_bgnd(),
            HandlerCall::FlsGetTestResultFgnd => self.get_test_result_fgnd(),
            _ => Reply::Done,
        }
    }

    ghost keeps_setting = { handlers_leave_setting };
}
