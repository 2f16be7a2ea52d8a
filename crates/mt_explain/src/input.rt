//! The inputs of the forms, and which status they give.

ghost use Rattle.std.specs.Prelude.{◌≡◌, ◌≢◌, Some, IfOk, IfErr, string_bytes, codes};
ghost use Rattle.mt_replay.specs.Replay.{form_of};
ghost use Rattle.mt_replay.specs.declared.status.Status.{Status};
ghost use Rattle.mt_explain.specs.Inputs.{asked_of, HasStatus};

use mt_board::SimBoard;
use mt_port::{NullSink, PlainSource};
use mt_replay::{Status, replay};
use mt_word::NoMemory;
use std::alloc::{AllocError, Global};

/// What stands in an input: a job, as `run`, `check`, `fmt`, `migrate` and `cut` read it; a slice with its misses, as
/// `locate`; or a job with a trace, as `verify`.
#[derive(Clone, Copy, Debug, PartialEq, Eq)]
pub enum Input {
    Job,
    Location,
    Claim,
}

/// The words by which the program reads an input.
fn words_for(alloc: Global, input: Input) -> Result<Vec<String>, AllocError>
    ensures { IfOk result (λ words. form_of words.items ≡ Some (asked_of input)) }
{
    let word = match input {
        Input::Job => "check",
        Input::Location => "locate",
        Input::Claim => "verify",
    };
    let mut words = Vec::new(alloc);
    words.push(String::from_str(alloc, word)?)?;
    Ok(words)
}

/// The status that `replay` answers to the bytes.
pub fn status_of(alloc: Global, input: Input, bytes: &[u8]) -> Result<Status, NoMemory>
    ensures status { IfOk result (HasStatus input bytes.now) }
    ensures memory { IfOk result (λ how. how ≢ Status.NoMemory) }
{
    let Ok(words) = words_for(alloc, input) else {
        return Err(NoMemory);
    };
    let Ok(bytes) = Vec::from_slice(alloc, bytes) else {
        return Err(NoMemory);
    };
    let mut source = PlainSource::new(bytes);
    let mut sink = NullSink::new();
    match replay(alloc, &words, &mut source, &mut sink, &mut SimBoard::new()) {
        Status::NoMemory => Err(NoMemory),
        status => Ok(status),
    }
}
