//! What breaks the rules on keys and types.

use crate::find::Target;
use crate::finding::Finding;
use crate::nearest::suggestion;
use crate::path::{Path, Placed, items_at};
use mt_conf::{Kind, Otherwise, Row, rows_of};
use std::alloc::{AllocError, Global};
use toml::Value;

// The keys of a table.
fn keys_of(alloc: Global, rows: &[Row]) -> Result<Vec<&'static str>, AllocError> {
    let mut keys = Vec::new(alloc);
    for row in rows {
        keys.push(row.key)?;
    }
    Ok(keys)
}

fn is_listed(rows: &[Row], key: &str) -> bool {
    rows.iter().any(|row| row.key == key)
}

fn unknown_in<'t>(alloc: Global, placed: Placed<'t>) -> Result<Option<Finding<'t>>, AllocError> {
    let rows = rows_of(placed.path.part());
    for key in placed.table.keys() {
        if !is_listed(rows, key.as_str()) {
            let keys = keys_of(alloc, rows)?;
            return Ok(Some(Finding {
                path: placed.path,
                place: placed.path,
                target: Target::Key(key.as_str()),
                found: format!(in alloc; "{key} is no key")?,
                help: suggestion(alloc, key.as_bytes(), keys.as_slice())?,
            }));
        }
    }
    Ok(None)
}

/// A key that no table takes there.
pub fn unknown_key<'t>(
    alloc: Global,
    tables: &[Placed<'t>],
) -> Result<Option<Finding<'t>>, AllocError> {
    for placed in tables {
        if let Some(finding) = unknown_in(alloc, *placed)? {
            return Ok(Some(finding));
        }
    }
    Ok(None)
}

// How a key may be written.
fn example(key: &str) -> &'static str {
    match key {
        "version" => "version = 1",
        "width" => "width = 8",
        "ram" => "ram = 64",
        "set" => "a table [[set]]",
        "algorithm" => "algorithm = \"march\"",
        "atomic" => "atomic = 4",
        "cells" => "cells = 8",
        "block" => "a table [[set.block]] after its set",
        "first" => "first = 0",
        "last" => "last = 9",
        "policy" => "policy = \"non-destructive\"",
        "interval_end" => "interval_end = 255",
        _ => "copy = 8",
    }
}

fn missing_in<'t>(alloc: Global, placed: Placed<'t>) -> Result<Option<Finding<'t>>, AllocError> {
    for row in rows_of(placed.path.part()) {
        if matches!(row.otherwise, Otherwise::Refused) && !placed.table.contains_key(row.key) {
            let key = row.key;
            let example = example(key);
            return Ok(Some(Finding {
                path: placed.path,
                place: placed.path,
                target: Target::Header,
                found: format!(in alloc; "{key} is missing")?,
                help: format!(in alloc; "write {example}")?,
            }));
        }
    }
    Ok(None)
}

/// A key that is missing.
pub fn missing_key<'t>(
    alloc: Global,
    tables: &[Placed<'t>],
) -> Result<Option<Finding<'t>>, AllocError> {
    for placed in tables {
        if let Some(finding) = missing_in(alloc, *placed)? {
            return Ok(Some(finding));
        }
    }
    Ok(None)
}

// What a key takes.
fn wanted(kind: Kind) -> &'static str {
    match kind {
        Kind::Number => "a whole number",
        Kind::Text => "a text in quotes",
        Kind::Table => "a table",
        Kind::Tables => "an array of tables",
    }
}

fn is_of_kind(kind: Kind, value: &Value) -> bool {
    match kind {
        Kind::Number => value.is_integer(),
        Kind::Text => value.is_str(),
        Kind::Table => value.is_table(),
        Kind::Tables => match value.as_array() {
            Some(items) => items.iter().all(|item| item.is_table()),
            None => false,
        },
    }
}

fn other_kind_in<'t>(alloc: Global, placed: Placed<'t>) -> Result<Option<Finding<'t>>, AllocError> {
    for row in rows_of(placed.path.part()) {
        if let Some(value) = placed.table.get(row.key)
            && !is_of_kind(row.kind, value)
        {
            let key = row.key;
            let is = value.type_str();
            let wanted = wanted(row.kind);
            return Ok(Some(Finding {
                path: placed.path,
                place: placed.path,
                target: Target::Value(key),
                found: format!(in alloc; "the value of {key} is of the type {is}")?,
                help: format!(in alloc; "write {wanted}")?,
            }));
        }
    }
    Ok(None)
}

/// A value of another type.
pub fn wrong_type<'t>(
    alloc: Global,
    tables: &[Placed<'t>],
) -> Result<Option<Finding<'t>>, AllocError> {
    for placed in tables {
        if let Some(finding) = other_kind_in(alloc, *placed)? {
            return Ok(Some(finding));
        }
    }
    Ok(None)
}
