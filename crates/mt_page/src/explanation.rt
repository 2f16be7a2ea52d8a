//! Why a form refuses a job.

ghost use Rattle.std.specs.Prelude.{◌≡◌, ◌≤◌, length};
ghost use Rattle.mt_page.specs.Answers.{IsRefusedSo};

use crate::room::{Told, put};
use mt_explain::{Input, explain, report};
use mt_replay::Status;
use std::alloc::Global;

/// What the job is called in an explanation.
const NAME: &str = "job";

// What stands in the input of a form.
fn input_of(form: &[u8]) -> Input {
    if form == b"locate".as_slice() {
        return Input::Location;
    }
    if form == b"verify".as_slice() {
        return Input::Claim;
    }
    Input::Job
}

/// Puts why a form refuses a job at the front of the room.
pub(crate) fn explanation(alloc: Global, form: &[u8], job: &[u8], room: &mut [u8]) -> Told
    ensures fits { result.written ≤ length room.new }
    ensures status { IsRefusedSo job.now result.status }
{
    let Ok(explanation) = explain(alloc, input_of(form), job) else {
        return Told::no_memory();
    };
    let Ok(text) = report(alloc, NAME, &explanation) else {
        return Told::no_memory();
    };
    match put(text.as_bytes(), room) {
        Some(written) => Told {
            status: explanation.status,
            written,
        },
        None => Told {
            status: Status::WriteFault,
            written: 0,
        },
    }
}
