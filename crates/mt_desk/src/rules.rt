//! The rules with their sentences.

use anyhow::Result;
use mt_explain::{rows, rule_name};
use std::process::ExitCode;

/// Writes each rule with its sentence.
pub fn list_rules<R: Print + AllocGlobal>(rt: &R) -> Result<ExitCode> {
    for row in rows() {
        let name = rule_name(rt.alloc(), row)?;
        let sentence = row.sentence;
        println!(rt; "{name}: {sentence}")?;
    }
    Ok(ExitCode::SUCCESS)
}
