//! Laws of machines under scripts.

ghost use Rattle.mt_laws.specs.Alarms.{FlsRaisesNoFalseAlarm, RamRaisesNoFalseAlarm};
ghost use Rattle.mt_laws.specs.Detection.{PassesFindFaults};
ghost use Rattle.mt_laws.specs.Evidence.{OkIsEvidence};
ghost use Rattle.mt_laws.specs.Latency.{LinesWaitUpTo, RequestsAreServedInTime, ScriptsWaitUpTo};
ghost use Rattle.mt_laws.specs.Memory.{MemoryIsPlain};
ghost use Rattle.mt_laws.specs.Plain.{TestsLeaveNoTrace};

use mt_blocks::{groups_take_a_tick, passes_begin, passes_go_on};
use mt_cover::{attempts_detect, attempts_stay_sound};
use mt_cut::greatest_slices_bound_waits;
use mt_fault::{memory_stays_sound, placement_is_tested, sound_memory_comes_and_goes};
use mt_fls::waits_of_running_calls as fls_waits;
use mt_machine::lines_keep_the_board;
use mt_ram::{
    accepted_sets_are_sound, attempts_are_at_slices, attempts_of_running_calls, results_are_reset,
    running_calls_leave_setting, running_calls_test_their_set, services_leave_setting,
    tests_leave_no_trace as ram_leaves_no_trace, waits_of_running_calls as ram_waits,
};
use mt_seq::{attempts_on_sound_memory, comparisons_are_exact};

/// Each request of an accepted line is served where its offset says. It waits 0, or less than the length of the attempt that
/// it meets; an urgent one at most the words of the slice, where the attempt may be dropped.
pub fn requests_are_served_in_time()
    ensures { RequestsAreServedInTime }
{
    ram_waits();
    fls_waits();
}

/// Where the slices of RamTst's set have at most as many words as the greatest slice for a wait, each request of a line that runs
/// RamTst waits at most so long, urgent or not. So the number that `cut` writes for a wait keeps to it.
pub fn slices_bound_waits()
    ensures line { LinesWaitUpTo }
    ensures script { ScriptsWaitUpTo }
{
    ram_waits();
    attempts_of_running_calls();
    attempts_are_at_slices();
    greatest_slices_bound_waits();
    running_calls_leave_setting();
    services_leave_setting();
}

/// On sound memory a script comes to the same where no test touches a word of the application, but that each sequence that
/// has ended leaves the fill of a destructive block: the same answers, waits and results, and the same words after each line.
pub fn tests_leave_no_trace()
    ensures { TestsLeaveNoTrace }
{
    ram_leaves_no_trace();
    services_leave_setting();
    running_calls_leave_setting();
    lines_keep_the_board();
}

/// On sound memory each answer of the application is that of a plain memory on which its operations are done in the order of
/// the script, with fills of destructive blocks between them.
pub fn memory_is_plain()
    ensures { MemoryIsPlain }
{
    ram_leaves_no_trace();
    services_leave_setting();
    running_calls_leave_setting();
    running_calls_test_their_set();
    lines_keep_the_board();
    attempts_on_sound_memory();
}

/// On sound memory no block of RamTst is ever NOT_OK, and no entry of a line of RamTst reports a failure, whatever handlers do,
/// whichever sets are selected and however tests are stopped, suspended or dropped.
pub fn no_false_alarm_of_ram()
    ensures { RamRaisesNoFalseAlarm }
{
    ram_leaves_no_trace();
    services_leave_setting();
    running_calls_leave_setting();
    lines_keep_the_board();
    attempts_on_sound_memory();
}

/// While each word of each flash block equals its copy, no interval and no foreground test of FlsTst is ever NOT_OK, no error details
/// name a place, and no entry of a line of FlsTst reports a failure, whatever else the script does.
pub fn no_false_alarm_of_fls()
    ensures { FlsRaisesNoFalseAlarm }
{
    comparisons_are_exact();
}

/// Where a pass runs undisturbed over a fault that its algorithm catches, the block of the fault's slice is NOT_OK after it.
pub fn passes_find_faults()
    ensures { PassesFindFaults }
{
    // An attempt fails where its algorithm catches the fault, and the RAM stays sound.
    attempts_detect();
    attempts_stay_sound();
    memory_stays_sound();
    sound_memory_comes_and_goes();
    placement_is_tested();
    passes_begin();
    passes_go_on();
    groups_take_a_tick();
    accepted_sets_are_sound();
    running_calls_leave_setting();
}

/// From where RamTst is about to test a block, the block does not become OK while a fault that is caught in one of its slices stays and
/// the results are not reset. So a result OK says that a test of the block has ended, and that no such fault was there all the while.
pub fn ok_is_evidence()
    ensures { OkIsEvidence }
{
    attempts_detect();
    attempts_stay_sound();
    memory_stays_sound();
    sound_memory_comes_and_goes();
    placement_is_tested();
    passes_begin();
    passes_go_on();
    groups_take_a_tick();
    accepted_sets_are_sound();
    running_calls_leave_setting();
    results_are_reset();
}
