//! The calls of a page: bytes in, bytes out, and no stream, file or clock between them.
//!
//! The words of the program are a form and its numbers, as `cut` and 0, 96 and 47. What is written is put at the front of the
//! room that the caller has for it.
#![tactic(auto)]

ghost use Rattle.std.specs.Prelude.{◌≡◌, ◌≤◌, length, take};
ghost use Rattle.mt_page.specs.Answers.{Answers, Explains};

mod answer;
mod explanation;
mod room;
mod words;

use answer::answer;
use explanation::explanation;
use mt_replay::exit_number;
use std::alloc::Global;

/// Does what a form with its numbers asks for with a job, on a board without a defect. The answer is the exit number of the
/// program: 6 if the room is too small for what is to be written, and then its front stands there.
#[unsafe(no_mangle)]
pub extern "C" fn mt_page_replay(
    alloc: Global,
    form: &[u8],
    numbers: &[u32],
    job: &[u8],
    room: &mut [u8],
    written: &mut usize,
) -> u32
    ensures fits { written.new ≤ length room.new }
    ensures gives { Answers form.now numbers.now job.now (take written.new room.new) result }
{
    let told = answer(alloc, form, numbers, job, room);
    *written = told.written;
    u32::from(exit_number(&told.status))
}

/// Writes why a form refuses a job, as `explain` does. The answer is the exit number with which the form refuses it, and 0 if
/// it takes it: then that is written.
#[unsafe(no_mangle)]
pub extern "C" fn mt_page_explain(
    alloc: Global,
    form: &[u8],
    job: &[u8],
    room: &mut [u8],
    written: &mut usize,
) -> u32
    ensures fits { written.new ≤ length room.new }
    ensures explains { Explains job.now result }
{
    let told = explanation(alloc, form, job, room);
    *written = told.written;
    u32::from(exit_number(&told.status))
}
