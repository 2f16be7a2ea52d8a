//! What the words ask for.

use crate::listing::number_in;
use crate::picture::Range;
use clap::{Arg, ArgMatches, Command, value_parser};
use std::alloc::{AllocError, Global};

/// What is asked for: a variant, a subcommand in `command` and an arm of `task_of` for each. `Nothing` is asked for by
/// no words that `command` takes.
#[derive(Clone, Copy, Debug)]
pub enum Task<'a> {
    Accesses { file: &'a str, line: Option<u32> },
    Explain { form: &'a str, file: &'a str },
    Generate { file: &'a str, folder: &'a str },
    New { file: &'a str },
    Picture { file: &'a str, lines: Range },
    Rules,
    Nothing,
}

static FORMS: [&str; 7] = ["run", "check", "fmt", "migrate", "cut", "locate", "verify"];

fn accesses_command<'a>(alloc: Global) -> Result<Command<'a>, AllocError> {
    let line = Arg::new(alloc, "line")
        .long("line")
        .value_name("N")
        .value_parser(value_parser!(u32))
        .help("lists the accesses of this script line alone");
    let file = Arg::new(alloc, "FILE").required(true);
    Command::new(alloc, "accesses")
        .about("replays a job, and writes its trace with the accesses of each line")
        .arg(line)?
        .arg(file)
}

fn explain_command<'a>(alloc: Global) -> Result<Command<'a>, AllocError> {
    let form = Arg::new(alloc, "FORM")
        .value_parser(FORMS.as_slice())
        .default_value("run");
    let file = Arg::new(alloc, "FILE").required(true);
    Command::new(alloc, "explain")
        .about("writes in words why a form refuses a file")
        .allow_missing_positional(true)
        .arg(form)?
        .arg(file)
}

fn generate_command<'a>(alloc: Global) -> Result<Command<'a>, AllocError> {
    let file = Arg::new(alloc, "FILE").required(true);
    let folder = Arg::new(alloc, "FOLDER").required(true);
    Command::new(alloc, "generate")
        .about("writes the tables of a job's configuration in C, into a folder")
        .arg(file)?
        .arg(folder)
}

fn new_command<'a>(alloc: Global) -> Result<Command<'a>, AllocError> {
    let file = Arg::new(alloc, "FILE").required(true);
    Command::new(alloc, "new")
        .about("writes a job to begin with, with a comment on each key")
        .arg(file)
}

fn picture_command<'a>(alloc: Global) -> Result<Command<'a>, AllocError> {
    let lines = Arg::new(alloc, "lines")
        .long("lines")
        .value_name("A-B")
        .help("draws the events of the script lines A to B alone");
    let file = Arg::new(alloc, "FILE").required(true);
    Command::new(alloc, "picture")
        .about("writes a page with pictures of a job, its events and its trace")
        .arg(lines)?
        .arg(file)
}

// The lines that `A-B` or a single number says, and all where nothing is said.
fn range_of(text: Option<&str>) -> Range {
    let Some(text) = text else {
        return Range {
            first: 1,
            last: u32::MAX,
        };
    };
    let mut ends = text.as_bytes().split(|byte| *byte == b'-');
    let first = number_in(ends.next()).unwrap_or(u32::MAX);
    Range {
        first,
        last: number_in(ends.next()).unwrap_or(first),
    }
}

fn rules_command<'a>(alloc: Global) -> Command<'a> {
    Command::new(alloc, "rules").about("lists the rules that refuse an input, with their sentences")
}

/// The command line of the program.
pub fn command<'a>(alloc: Global) -> Result<Command<'a>, AllocError> {
    Command::new(alloc, "mt_desk")
        .about("what people ask for before and after a replay")
        .subcommand_required(true)
        .subcommand(accesses_command(alloc)?)?
        .subcommand(explain_command(alloc)?)?
        .subcommand(generate_command(alloc)?)?
        .subcommand(new_command(alloc)?)?
        .subcommand(picture_command(alloc)?)?
        .subcommand(rules_command(alloc))
}

/// The task that the words of a subcommand ask for.
pub fn task_of<'a>(matches: &ArgMatches<'a>) -> Task<'a> {
    match matches.subcommand() {
        Some(("accesses", of)) => Task::Accesses {
            file: of.get_str("FILE").unwrap_or(""),
            line: of.get_one::<u32>("line"),
        },
        Some(("explain", of)) => Task::Explain {
            form: of.get_str("FORM").unwrap_or("run"),
            file: of.get_str("FILE").unwrap_or(""),
        },
        Some(("generate", of)) => Task::Generate {
            file: of.get_str("FILE").unwrap_or(""),
            folder: of.get_str("FOLDER").unwrap_or(""),
        },
        Some(("new", of)) => Task::New {
            file: of.get_str("FILE").unwrap_or(""),
        },
        Some(("picture", of)) => Task::Picture {
            file: of.get_str("FILE").unwrap_or(""),
            lines: range_of(of.get_str("lines")),
        },
        Some(("rules", _)) => Task::Rules,
        _ => Task::Nothing,
    }
}
