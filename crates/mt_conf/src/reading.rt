//! The reader.

ghost use Rattle.std.specs.Prelude.{◌≡◌, ◌≢◌, ◌≤◌, length, IfOk, IfErr, Ok, Err, Some, None};
ghost use Rattle.toml.specs.View.{table_view};
ghost use Rattle.mt_conf.specs.Outcome.{rules_before_march, rules_after_march, first_of, first_broken, document, outcome};
ghost use Rattle.mt_conf.specs.Accepted.{IsAcceptedConfig};
ghost use Rattle.mt_conf.specs.declared.config.ConfigRefusal.{ConfigRefusal};

use crate::config::{Config, ConfigRefusal};
use crate::flash::{has_copy_overlap, has_wrong_flash_range};
use crate::laws::accepted_is_taken;
use crate::march::refused_march;
use crate::shape::{KeyRule, breaks_somewhere};
use crate::value::config_of;
use crate::values::{
    has_overlap, has_wrong_algorithm, has_wrong_block_range, has_wrong_cells_range,
    has_wrong_count, has_wrong_size, has_wrong_version, has_wrong_width, has_wrong_word,
    is_transparent_destructive,
};
use std::alloc::Global;
use toml::Table;

fn broken_before_march(table: &Table) -> Option<ConfigRefusal>
    ensures { result ≡ first_of (rules_before_march (table_view table.now)) }
{
    if breaks_somewhere(KeyRule::UnknownKey, table) {
        return Some(ConfigRefusal::UnknownKey);
    }
    if breaks_somewhere(KeyRule::MissingKey, table) {
        return Some(ConfigRefusal::MissingKey);
    }
    if breaks_somewhere(KeyRule::WrongType, table) {
        return Some(ConfigRefusal::WrongType);
    }
    if has_wrong_version(table) {
        return Some(ConfigRefusal::Version);
    }
    if has_wrong_width(table) {
        return Some(ConfigRefusal::Width);
    }
    if has_wrong_size(table) {
        return Some(ConfigRefusal::Size);
    }
    if has_wrong_word(table) {
        return Some(ConfigRefusal::Word);
    }
    if has_wrong_count(table) {
        return Some(ConfigRefusal::Count);
    }
    if has_wrong_algorithm(table) {
        return Some(ConfigRefusal::Algorithm);
    }
    None
}

fn broken_after_march(table: &Table) -> Option<ConfigRefusal>
    ensures { result ≡ first_of (rules_after_march (table_view table.now)) }
{
    if is_transparent_destructive(table) {
        return Some(ConfigRefusal::TransparentDestructive);
    }
    if has_wrong_block_range(table) {
        return Some(ConfigRefusal::BlockRange);
    }
    if has_overlap(table) {
        return Some(ConfigRefusal::Overlap);
    }
    if has_wrong_cells_range(table) {
        return Some(ConfigRefusal::CellsRange);
    }
    if has_wrong_flash_range(table) {
        return Some(ConfigRefusal::FlashRange);
    }
    if has_copy_overlap(table) {
        return Some(ConfigRefusal::CopyOverlap);
    }
    None
}

/// Refuses a table that breaks a rule, by the least.
fn check(table: &Table) -> Result<(), ConfigRefusal>
    ensures ok { IfOk result (λ _. first_broken (table_view table.now) ≡ None) }
    ensures err { IfErr result (λ e. first_broken (table_view table.now) ≡ Some e) }
{
    if let Some(refusal) = broken_before_march(table) {
        return Err(refusal);
    }
    if let Some(refusal) = refused_march(table) {
        return Err(refusal);
    }
    match broken_after_march(table) {
        Some(refusal) => Err(refusal),
        None => Ok(()),
    }
}

/// The table that the bytes are.
#[tactic(auto, unfolding(crate::specs::Outcome::document))]
fn table_of(alloc: Global, bytes: &[u8]) -> Result<Table, ConfigRefusal>
    ensures ok { IfOk result (λ t. document bytes.now ≡ Some (table_view t)) }
    ensures err { IfErr result (λ e. e ≢ ConfigRefusal.NoMemory
        → (e ≡ ConfigRefusal.NotToml) × (document bytes.now ≡ None)) }
{
    match std::str::from_utf8(bytes) {
        Err(_) => Err(ConfigRefusal::NotToml),
        Ok(text) => match toml::table_from_str(alloc, text) {
            Ok(table) => Ok(table),
            Err(fault) => {
                if fault.is_memory() {
                    Err(ConfigRefusal::NoMemory)
                } else {
                    Err(ConfigRefusal::NotToml)
                }
            }
        },
    }
}

/// Reads a configuration of at most 65,536 bytes: the value, or the least rule that is broken.
#[tactic(auto, unfolding(crate::specs::Outcome::outcome))]
pub fn read_config(alloc: Global, text: &[u8]) -> Result<Config, ConfigRefusal>
    requires { length text.now ≤ 65536 }
    // What is read is the value of the text's entries, where no rule is broken.
    ensures ok { IfOk result (λ c. outcome text.now ≡ Ok c) }
    // The modules take it.
    ensures accepted { IfOk result IsAcceptedConfig }
    // But for want of memory, a refusal is that of the least broken rule.
    ensures err { IfErr result (λ e. e ≢ ConfigRefusal.NoMemory → outcome text.now ≡ Err e) }
{
    let table = table_of(alloc, text)?;
    check(&table)?;
    accepted_is_taken();
    match config_of(alloc, &table) {
        Ok(config) => Ok(config),
        Err(_) => Err(ConfigRefusal::NoMemory),
    }
}
