//! The accesses of a job, between the lines of its trace.

use crate::generate::config_bytes;
use crate::listing::Listing;
use anyhow::{Context, Result, bail};
use mt_board::{Deeds, SimBoard, Watched};
use mt_conf::{Config, read_config};
use mt_port::{MemSink, PlainSource, Shape};
use mt_replay::{exit_number, replay};
use mt_text::{Line, number_of};
use std::fs;
use std::io::{self, Write};
use std::process::ExitCode;
use std::rt::Files;

/// The most deeds of a job that are listed, and the most bytes of its trace.
const ROOM: usize = 1_048_576;

const MOST_TRACE: usize = 67_108_864;

/// The most bytes of a configuration and of a script line.
const MOST_BYTES: usize = 65_536;

const MOST_LINE: usize = 1024;

/// The bytes of the line between a configuration and a script.
const SEPARATOR_LEN: usize = 6;

/// The number of a script line with which a line of a trace begins, and what follows it.
pub fn numbered(text: &[u8]) -> Option<(u32, &[u8])> {
    let space = text.iter().position(|byte| *byte == b' ')?;
    let number = number_of(&text[..space])?;
    Some((number, &text[space + 1..]))
}

/// The lines of a job's script.
pub fn script_of(job: &[u8]) -> &[u8] {
    let begin = config_bytes(job).len().saturating_add(SEPARATOR_LEN);
    job.get(begin..).unwrap_or(b"")
}

/// Becomes what a script line asks for.
pub fn read_script_line(line: &mut Line, text: &[u8], shape: Shape) {
    if text.len() <= MOST_LINE {
        // A line that has an entry was accepted.
        let _ = line.read(text, shape);
    }
}

// Lists what was done, between the lines of a trace.
fn list<W: Write + Drop>(
    listing: &mut Listing<'_, W>,
    shape: Shape,
    job: &[u8],
    trace: &[u8],
    chosen: Option<u32>,
) -> Result<()> {
    let mut texts = script_of(job).split(|byte| *byte == b'\n');
    let mut line = Line::new();
    let mut latest = 0;
    for text in trace.split(|byte| *byte == b'\n') {
        match numbered(text) {
            Some((number, entry)) => {
                if number > latest {
                    let script_line = texts.nth((number - latest - 1) as usize).unwrap_or(b"");
                    read_script_line(&mut line, script_line, shape);
                    latest = number;
                }
                let shown = chosen.is_none_or(|line: u32| line == number);
                listing.list_entry(&line, text, entry, shown)?;
            }
            None if chosen.is_none() && !text.is_empty() => listing.list_text(text)?,
            None => {}
        }
    }
    listing.end()
}

/// The configuration of a job, if it is accepted.
pub fn config_of<R: AllocGlobal>(rt: &R, job: &[u8]) -> Option<Config> {
    let bytes = config_bytes(job);
    if bytes.len() > MOST_BYTES {
        return None;
    }
    read_config(rt.alloc(), bytes).ok()
}

/// Replays a job, and writes its trace with the accesses of each line, or of one line alone, before what they led to.
pub fn list_accesses<R: Files + Print + AllocGlobal>(
    rt: &R,
    file: &str,
    chosen: Option<u32>,
) -> Result<ExitCode> {
    let alloc = rt.alloc();
    let job = fs::read(rt, file).context(format_args!("cannot read the file {file}"))?;
    let Ok(deeds) = Deeds::new(alloc, ROOM) else {
        bail!("no memory was found");
    };
    let Ok(mut sink) = MemSink::new(alloc, MOST_TRACE, Vec::new(alloc)) else {
        bail!("no memory was found");
    };
    let mut board = Watched::new(SimBoard::new(), deeds);
    let words = vec![in alloc; String::from_str(alloc, "run")?]?;
    let mut source = PlainSource::new(job.clone()?);
    let status = replay(alloc, &words, &mut source, &mut sink, &mut board);
    match config_of(rt, job.as_slice()) {
        Some(config) => {
            let Config {
                shape,
                ram_tst,
                fls_tst,
                ..
            } = &config;
            let out = io::writer(rt);
            let mut listing = Listing::new(
                alloc,
                out,
                board.deeds(),
                ram_tst,
                fls_tst,
                shape.width,
            )?;
            list(
                &mut listing,
                config.shape,
                job.as_slice(),
                sink.bytes(),
                chosen,
            )?;
        }
        // The trace of a refused configuration is one line.
        None => io::writer(rt).write_all(sink.bytes())?,
    }
    Ok(ExitCode::from(exit_number(&status)))
}
