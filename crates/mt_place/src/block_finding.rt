//! What breaks the rules on blocks, slices and ticks.

ghost use Rattle.std.specs.Prelude.{[], ◌∷◌, codes, IfOk, IfSome};
ghost use Rattle.mt_place.specs.Subjects.{IsAt, cell_keys, flash_keys};

use crate::find::Target;
use crate::finding::{Finding, number, out_of_range, text, top};
use crate::path::{Path, Placed};
use std::alloc::{AllocError, Global};
use toml::Table;

fn set_of(path: Path) -> Option<usize> {
    match path {
        Path::Set(set) => Some(set),
        Path::Block { set, .. } => Some(set),
        _ => None,
    }
}

fn is_transparent(tables: &[Placed<'_>], set: Option<usize>) -> bool {
    tables.iter().any(|placed| {
        matches!(placed.path, Path::Set(_))
            && set_of(placed.path) == set
            && text(placed.table, "algorithm") == "transparent-galpat"
    })
}

/// The destructive block of a set with transparent Galpat.
pub fn destructive<'t>(
    alloc: Global,
    tables: &[Placed<'t>],
) -> Result<Option<Finding<'t>>, AllocError>
    ensures { IfOk result (λ found. IfSome found (λ f. IsAt (codes "policy" ∷ []) f.target)) }
{
    for placed in tables {
        if matches!(placed.path, Path::Block { .. })
            && text(placed.table, "policy") == "destructive"
            && is_transparent(tables, set_of(placed.path))
        {
            return Ok(Some(Finding {
                path: placed.path,
                place: placed.path,
                target: Target::Value("policy"),
                found: String::from_str(alloc, "policy is destructive")?,
                help: String::from_str(
                    alloc,
                    "write non-destructive, or another algorithm for the set",
                )?,
            }));
        }
    }
    Ok(None)
}

/// The first and the last address of a block that are not in order below a limit.
pub fn wrong_span<'t>(
    alloc: Global,
    placed: Placed<'t>,
    size: &str,
    limit: i64,
) -> Result<Option<Finding<'t>>, AllocError>
    ensures block { IfOk result (λ found. IfSome found (λ f. IsAt (codes "first" ∷ codes "last" ∷ []) f.target)) }
    ensures flash { IfOk result (λ found. IfSome found (λ f. IsAt flash_keys f.target)) }
{
    let first = number(placed.table, "first");
    let last = number(placed.table, "last");
    let (key, found, help) = if first < 0 {
        (
            "first",
            format!(in alloc; "first is {first}")?,
            format!(in alloc; "write 0 or more")?,
        )
    } else if last < first {
        (
            "last",
            format!(in alloc; "last is {last}, and first is {first}")?,
            format!(in alloc; "write {first} or more")?,
        )
    } else if last >= limit {
        (
            "last",
            format!(in alloc; "last is {last}, and {size} is {limit}")?,
            format!(in alloc; "write less than {limit}")?,
        )
    } else {
        return Ok(None);
    };
    Ok(Some(Finding {
        path: placed.path,
        place: placed.path,
        target: Target::Value(key),
        found,
        help,
    }))
}

/// The block that is not within the RAM.
pub fn range<'t>(alloc: Global, tables: &[Placed<'t>]) -> Result<Option<Finding<'t>>, AllocError>
    ensures { IfOk result (λ found. IfSome found (λ f. IsAt (codes "first" ∷ codes "last" ∷ []) f.target)) }
{
    let limit = top(tables).map_or(0, |table| number(table, "ram"));
    for placed in tables {
        if matches!(placed.path, Path::Block { .. })
            && let Some(finding) = wrong_span(alloc, *placed, "ram", limit)?
        {
            return Ok(Some(finding));
        }
    }
    Ok(None)
}

fn meet(a: &Table, b: &Table) -> bool {
    number(a, "first") <= number(b, "last") && number(b, "first") <= number(a, "last")
}

// The block that shares words with an earlier one of its set.
fn overlap_of<'t>(
    alloc: Global,
    placed: Placed<'t>,
    earlier: &[Placed<'t>],
) -> Result<Option<Finding<'t>>, AllocError>
    ensures { IfOk result (λ found. IfSome found (λ f. IsAt (codes "first" ∷ []) f.target)) }
{
    for other in earlier {
        if matches!(other.path, Path::Block { .. })
            && set_of(other.path) == set_of(placed.path)
            && meet(other.table, placed.table)
        {
            let name = other.path.name(alloc)?;
            let (first, last) = (number(other.table, "first"), number(other.table, "last"));
            return Ok(Some(Finding {
                path: placed.path,
                place: placed.path,
                target: Target::Value("first"),
                found: format!(in alloc; "the block shares words with {name}, {first} to {last}")?,
                help: String::from_str(
                    alloc,
                    "write blocks that share no word, or put one into another set",
                )?,
            }));
        }
    }
    Ok(None)
}

/// The block that shares words with another one of its set.
pub fn overlap<'t>(alloc: Global, tables: &[Placed<'t>]) -> Result<Option<Finding<'t>>, AllocError>
    ensures { IfOk result (λ found. IfSome found (λ f. IsAt (codes "first" ∷ []) f.target)) }
{
    for (index, placed) in tables.iter().enumerate() {
        if matches!(placed.path, Path::Block { .. })
            && let Some(finding) = overlap_of(alloc, *placed, &tables[..index])?
        {
            return Ok(Some(finding));
        }
    }
    Ok(None)
}

/// The slices and ticks of a set or of `fls` that are out of range.
pub fn wrong_cells<'t>(alloc: Global, placed: Placed<'t>) -> Result<Option<Finding<'t>>, AllocError>
    ensures set { IfOk result (λ found. IfSome found (λ f. IsAt cell_keys f.target)) }
    ensures flash { IfOk result (λ found. IfSome found (λ f. IsAt flash_keys f.target)) }
{
    match out_of_range(alloc, placed, "atomic", (1, 64))? {
        Some(finding) => Ok(Some(finding)),
        None => out_of_range(
            alloc,
            placed,
            "cells",
            (number(placed.table, "atomic"), 65_536),
        ),
    }
}

fn wrong_retries<'t>(
    alloc: Global,
    placed: Placed<'t>,
    version: i64,
) -> Result<Option<Finding<'t>>, AllocError>
    ensures { IfOk result (λ found. IfSome found (λ f. IsAt cell_keys f.target)) }
{
    if !placed.table.contains_key("retries") {
        return Ok(None);
    }
    if version != 1 {
        return out_of_range(alloc, placed, "retries", (0, 16));
    }
    Ok(Some(Finding {
        path: placed.path,
        place: placed.path,
        target: Target::Key("retries"),
        found: String::from_str(alloc, "retries stands in version 1")?,
        help: String::from_str(alloc, "leave retries out, or write version = 2")?,
    }))
}

/// The slices, ticks or retries of a set that are out of range.
pub fn cells<'t>(alloc: Global, tables: &[Placed<'t>]) -> Result<Option<Finding<'t>>, AllocError>
    ensures { IfOk result (λ found. IfSome found (λ f. IsAt cell_keys f.target)) }
{
    let version = top(tables).map_or(1, |table| number(table, "version"));
    for placed in tables {
        if matches!(placed.path, Path::Set(_)) {
            if let Some(finding) = wrong_cells(alloc, *placed)? {
                return Ok(Some(finding));
            }
            if let Some(finding) = wrong_retries(alloc, *placed, version)? {
                return Ok(Some(finding));
            }
        }
    }
    Ok(None)
}
