//! The program `mt_desk`: what people ask for before and after a replay.
#![tactic(auto)]

mod accesses;
mod chart;
mod deed_text;
mod explain;
mod generate;
mod listing;
mod map;
mod new;
mod parts;
mod picture;
mod place;
mod rules;
mod sight;
mod step;
mod task;

use anyhow::Result;
use std::env;
use std::process::ExitCode;
use std::rt::Runtime;
use task::{Task, command, task_of};

// Does a task: one arm, and one file, for each.
fn perform<R: Runtime + AllocGlobal>(rt: &R, task: Task<'_>) -> Result<ExitCode> {
    match task {
        Task::Accesses { file, line } => accesses::list_accesses(rt, file, line),
        Task::Explain { form, file } => explain::explain_file(rt, form, file),
        Task::Generate { file, folder } => generate::generate(rt, file, folder),
        Task::Picture { file, lines } => picture::draw_picture(rt, file, lines),
        Task::New { file } => new::write_job(rt, file),
        Task::Rules => rules::list_rules(rt),
        Task::Nothing => Ok(ExitCode::from(2)),
    }
}

/// Does what the words after the program's name ask for. Words that ask for nothing end it with 2.
fn main(rt: HostRuntime) -> Result<ExitCode> {
    let alloc = rt.alloc();
    let words: Vec<String> = env::args(&rt)?.collect(alloc)?;
    match command(alloc)?.try_get_matches_from(words.as_slice()) {
        Ok(matches) => perform(&rt, task_of(&matches)),
        Err(error) => {
            error.print(&rt)?;
            Ok(ExitCode::from(if error.use_stderr() { 2 } else { 0 }))
        }
    }
}
