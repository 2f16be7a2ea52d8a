//! What a form writes of a job.

ghost use Rattle.std.specs.Prelude.{◌≡◌, ◌≤◌, length, take, List, String};
ghost use Rattle.std.specs.Global.{Global};
ghost use Rattle.mt_page.specs.Answers.{Spells, Gives, given};
ghost use Rattle.mt_replay.specs.Replay.{form_of};

use crate::room::{Told, put};
use crate::words::words_of;
use mt_board::SimBoard;
use mt_port::{MemSink, PlainSource};
use mt_replay::replay;
use std::alloc::Global;

// Does what the words ask for with a job.
fn answer_words(alloc: Global, words: &[String], job: Vec<u8>, room: &mut [u8]) -> Told
    ensures fits { result.written ≤ length room.new }
    ensures gives { Gives result.status (given (form_of words.now) job.items) (take result.written room.new) }
{
    let Ok(mut sink) = MemSink::new(alloc, room.len(), Vec::new(alloc)) else {
        return Told::no_memory();
    };
    let mut source = PlainSource::new(job);
    let status = replay(alloc, words, &mut source, &mut sink, &mut SimBoard::new());
    match put(sink.bytes(), room) {
        Some(written) => Told { status, written },
        // The sink has no more room than this.
        None => Told::no_memory(),
    }
}

/// Does what a form with its numbers asks for with a job, and puts what is written at the front of the room.
pub(crate) fn answer(
    alloc: Global,
    form: &[u8],
    numbers: &[u32],
    job: &[u8],
    room: &mut [u8],
) -> Told
    ensures fits { result.written ≤ length room.new }
    ensures gives { (words : List (String Global)) → Spells words form.now numbers.now
        → Gives result.status (given (form_of words) job.now) (take result.written room.new) }
{
    let Ok(words) = words_of(alloc, form, numbers) else {
        return Told::no_memory();
    };
    match Vec::from_slice(alloc, job) {
        Ok(job) => answer_words(alloc, &words, job, room),
        Err(_) => Told::no_memory(),
    }
}
