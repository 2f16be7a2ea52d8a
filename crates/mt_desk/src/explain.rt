//! Why a file is refused.

use anyhow::{Context, Result, bail};
use mt_explain::{Input, explain, report};
use std::fs;
use std::process::ExitCode;
use std::rt::Files;

// What stands in the input of a form.
fn input_of(form: &str) -> Input {
    match form {
        "locate" => Input::Location,
        "verify" => Input::Claim,
        _ => Input::Job,
    }
}

/// Writes why a form refuses a file.
pub fn explain_file<R: Files + Print + AllocGlobal>(
    rt: &R,
    form: &str,
    file: &str,
) -> Result<ExitCode> {
    let bytes = fs::read(rt, file).context(format_args!("cannot read the file {file}"))?;
    match explain(rt.alloc(), input_of(form), &bytes) {
        Ok(explanation) => rt.print(report(rt.alloc(), file, &explanation)?)?,
        Err(_) => bail!("no memory was found"),
    }
    Ok(ExitCode::SUCCESS)
}
