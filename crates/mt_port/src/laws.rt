//! Laws of the application's operations.

ghost use Rattle.mt_port.specs.Laws.{ReadsAnswer, WritesLeave, AdditionsLeaveSums, CopiesLeaveTheirSource, FlashReadsAnswer, FlashBeginsErased};

use mt_fault::memory_without_a_fault_is_plain;

/// What each operation answers and leaves where the memory has no fault, word by word.
pub fn operations_on_plain_memory()
    ensures read { ReadsAnswer }
    ensures write { WritesLeave }
    ensures add { AdditionsLeaveSums }
    ensures copy { CopiesLeaveTheirSource }
    ensures flash { FlashReadsAnswer }
{
    memory_without_a_fault_is_plain();
}

/// A flash begins with all bits 1.
pub fn flash_begins_erased()
    ensures { FlashBeginsErased }
{}
