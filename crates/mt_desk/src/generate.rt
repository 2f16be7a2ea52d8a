//! Tables in C for a control unit.

ghost use Rattle.std.specs.Prelude.{◌≤◌, length};
ghost use Rattle.mt_conf.specs.Accepted.{IsAcceptedConfig};

use anyhow::{Context, Result, bail};
use mt_conf::{Config, ConfigRefusal, read_config, write_config};
use mt_port::MemSink;
use mt_unit::{Unwritten, fls_header, fls_source, ram_header, ram_source};
use std::alloc::Global;
use std::fs;
use std::process::ExitCode;
use std::rt::Files;

/// The line between a configuration and a script, and the most bytes of a configuration.
const SEPARATOR: &[u8] = b"=====";

const MOST_BYTES: usize = 65_536;

/// The most bytes of a configuration's canonical text: sixteen sets of 64 blocks, and 128 flash blocks.
const MOST_TEXT: usize = 262_144;

/// The configuration of a job: its bytes up to the separator, or all where there is none.
pub fn config_bytes(job: &[u8]) -> &[u8] {
    let mut start = 0;
    for line in job.split(|byte| *byte == b'\n') {
        if line == SEPARATOR {
            return &job[..start.min(job.len())];
        }
        start = start.saturating_add(line.len()).saturating_add(1);
    }
    job
}

// Writes one of the files.
fn write_file<R: Files + AllocGlobal>(rt: &R, folder: &str, name: &str, text: &[u8]) -> Result<()> {
    let path = format!(in rt.alloc(); "{folder}/{name}")?;
    fs::write(rt, path.as_str(), text).context(format_args!(
        "cannot write the file {folder}/{name}"
    ))?;
    Ok(())
}

// The canonical text of a configuration.
fn canonical(alloc: Global, config: &Config) -> Result<String>
    requires { IsAcceptedConfig config.now }
{
    let Ok(mut sink) = MemSink::new(alloc, MOST_TEXT, Vec::new(alloc)) else {
        bail!("no memory was found");
    };
    if write_config(config, &mut sink).is_err() {
        bail!("no memory was found");
    }
    match std::str::from_utf8(sink.bytes()) {
        Ok(text) => Ok(String::from_str(alloc, text)?),
        Err(_) => bail!("the configuration's text is no UTF-8"),
    }
}

// A text, or why there is none.
fn written(text: Result<Vec<u8>, Unwritten>) -> Result<Vec<u8>> {
    match text {
        Ok(text) => Ok(text),
        Err(Unwritten::NoMemory) => bail!("no memory was found"),
        Err(Unwritten::NotReadBack) => bail!(
            "the tables that were written are not those of the configuration"
        ),
    }
}

// Writes the four files of a configuration.
fn write_tables<R: Files + AllocGlobal>(rt: &R, config: &Config, folder: &str) -> Result<()>
    requires { IsAcceptedConfig config.now }
{
    let alloc = rt.alloc();
    fs::create_dir_all(rt, folder).context(format_args!("cannot make the folder {folder}"))?;
    let text = canonical(alloc, config)?;
    let ram = written(ram_source(alloc, config.shape, &config.ram_tst))?;
    write_file(rt, folder, "RamTst_Cfg.c", ram.as_slice())?;
    let fls = written(fls_source(alloc, config.shape, &config.fls_tst))?;
    write_file(rt, folder, "FlsTst_Cfg.c", fls.as_slice())?;
    let ram = ram_header(
        alloc,
        config.shape,
        config.initial,
        &config.ram_tst,
        text.as_str(),
    )?;
    write_file(rt, folder, "RamTst_Cfg.h", ram.as_slice())?;
    let fls = fls_header(alloc, config.shape, &config.fls_tst, text.as_str())?;
    write_file(rt, folder, "FlsTst_Cfg.h", fls.as_slice())
}

/// Writes the tables of a job's configuration into a folder, which is made if it is not there.
pub fn generate<R: Files + Print + AllocGlobal>(
    rt: &R,
    file: &str,
    folder: &str,
) -> Result<ExitCode> {
    let job = fs::read(rt, file).context(format_args!("cannot read the file {file}"))?;
    let bytes = config_bytes(job.as_slice());
    if bytes.len() > MOST_BYTES {
        bail!("the configuration of {file} is refused: ./mt check {file} says why");
    }
    match read_config(rt.alloc(), bytes) {
        Ok(config) => write_tables(rt, &config, folder)?,
        Err(ConfigRefusal::NoMemory) => bail!("no memory was found"),
        Err(_) => bail!("the configuration of {file} is refused: ./mt check {file} says why"),
    }
    Ok(ExitCode::SUCCESS)
}
