//! RamTst as handlers see it.

use crate::state::Ram;
use mt_port::HandlerCall;
use mt_window::{Callee, Reply};

impl Callee for Ram {
    ghost use Rattle.std.specs.Prelude.{◌≡◌};
    ghost use Rattle.mt_port.specs.declared.request.Module.TheVariants.{RamTst as Itself};
    ghost use Rattle.mt_ram.specs.State.{RamTst, Setting};
    ghost use Rattle.mt_ram.specs.Table.{ram_table};
    ghost use Rattle.mt_ram.specs.Kept.{handlers_leave_setting};

    ghost kind = { Itself };

    ghost table = { ram_table };

    ghost Setting = { Setting };

    ghost setting = { λ (r : RamTst). r.setting };

    #[tactic(auto, unfolding(crate::specs::Table::ram_table))]
    fn call(&mut self, call: HandlerCall) -> Reply {
        match call {
            HandlerCall::RamAllow => self.allow(),
            HandlerCall::RamStop => self.stop(),
            HandlerCall::RamSuspend => self.suspend(),
            HandlerCall::RamResume => self.resume(),
            HandlerCall::RamGetExecutionStatus => self.get_execution_status(),
            HandlerCall::RamGetTestResult => self.get_test_result(),
            HandlerCall::RamGetTestResultPerBlock(block) => self.get_test_result_per_block(block),
            HandlerCall::FlsSuspend
            | HandlerCall::FlsResume
            | HandlerCall::FlsAbort
            | HandlerCall::FlsGetCurrentState
            | HandlerCall::FlsGetTestResultBgnd
            | HandlerCall::FlsGetTestResultFgnd => Reply::Done,
        }
    }

    ghost keeps_setting = { handlers_leave_setting };
}
