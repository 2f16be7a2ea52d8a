//! The program `mt`.
#![tactic(auto)]

use mt_board::SimBoard;
use mt_port::{StdIn, StdOut};
use mt_replay::{Status, exit_number, replay};
use std::process::ExitCode;
use std::{env, io};

// The words after the program's name.
fn words_of(rt: &HostRuntime) -> io::Result<Vec<String>> {
    let words = env::args(rt)?.skip(1).collect(rt.alloc())?;
    Ok(words)
}

/// Replays the job on standard input, as the words ask for it, and writes to standard output alone.
fn main(rt: HostRuntime) -> ExitCode {
    let words = match words_of(&rt) {
        Ok(words) => words,
        Err(error) if error.kind() == io::ErrorKind::OutOfMemory => {
            return ExitCode::from(exit_number(&Status::NoMemory));
        }
        // A word that is not UTF-8 belongs to no form of the program.
        Err(_) => Vec::new(rt.alloc()),
    };
    let mut source = StdIn::new(rt.reader());
    let mut sink = StdOut::new(io::writer(&rt));
    let mut board = SimBoard::new();
    let status = replay(rt.alloc(), &words, &mut source, &mut sink, &mut board);
    ExitCode::from(exit_number(&status))
}

#[cfg(test)]
mod tests;
