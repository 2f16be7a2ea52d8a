//! What breaks the rules on `fls` and its blocks.

ghost use Rattle.std.specs.Prelude.{[], ◌∷◌, codes, IfOk, IfSome};
ghost use Rattle.mt_place.specs.Subjects.{IsAt, flash_keys};

use crate::block_finding::{wrong_cells, wrong_span};
use crate::find::Target;
use crate::finding::{Finding, number, out_of_range, top};
use crate::path::{Path, Placed};
use std::alloc::{AllocError, Global};
use toml::Table;

// The last address of the copy of a flash block.
fn copy_last(block: &Table) -> i64 {
    let length = number(block, "last").saturating_sub(number(block, "first"));
    number(block, "copy").saturating_add(length)
}

// The copy that is not within the flash.
fn wrong_copy<'t>(
    alloc: Global,
    placed: Placed<'t>,
    flash: i64,
) -> Result<Option<Finding<'t>>, AllocError>
    ensures { IfOk result (λ found. IfSome found (λ f. IsAt flash_keys f.target)) }
{
    let (copy, last) = (number(placed.table, "copy"), copy_last(placed.table));
    if 0 <= copy && last < flash {
        return Ok(None);
    }
    Ok(Some(Finding {
        path: placed.path,
        place: placed.path,
        target: Target::Value("copy"),
        found: format!(in alloc; "the copy is {copy} to {last}, and flash is {flash}")?,
        help: String::from_str(
            alloc,
            "write a copy that lies in the flash, or a larger flash",
        )?,
    }))
}

fn flash_in<'t>(
    alloc: Global,
    placed: Placed<'t>,
    flash: i64,
) -> Result<Option<Finding<'t>>, AllocError>
    ensures { IfOk result (λ found. IfSome found (λ f. IsAt flash_keys f.target)) }
{
    match placed.path {
        Path::Fls => match wrong_cells(alloc, placed)? {
            Some(finding) => Ok(Some(finding)),
            None => out_of_range(alloc, placed, "interval_end", (0, 65_535)),
        },
        Path::Bgnd(_) | Path::Fgnd(_) => match wrong_span(alloc, placed, "flash", flash)? {
            Some(finding) => Ok(Some(finding)),
            None => wrong_copy(alloc, placed, flash),
        },
        _ => Ok(None),
    }
}

/// What of `fls` is out of range.
pub fn flash<'t>(alloc: Global, tables: &[Placed<'t>]) -> Result<Option<Finding<'t>>, AllocError>
    ensures { IfOk result (λ found. IfSome found (λ f. IsAt flash_keys f.target)) }
{
    let flash = top(tables).map_or(0, |table| number(table, "flash"));
    for placed in tables {
        if let Some(finding) = flash_in(alloc, *placed, flash)? {
            return Ok(Some(finding));
        }
    }
    Ok(None)
}

fn meets_copy(block: &Table) -> bool {
    number(block, "first") <= copy_last(block) && number(block, "copy") <= number(block, "last")
}

/// The flash block that shares words with its copy.
pub fn copy<'t>(alloc: Global, tables: &[Placed<'t>]) -> Result<Option<Finding<'t>>, AllocError>
    ensures { IfOk result (λ found. IfSome found (λ f. IsAt (codes "copy" ∷ []) f.target)) }
{
    for placed in tables {
        if matches!(placed.path, Path::Bgnd(_) | Path::Fgnd(_)) && meets_copy(placed.table) {
            let (first, last) = (number(placed.table, "first"), number(placed.table, "last"));
            let (copy, end) = (number(placed.table, "copy"), copy_last(placed.table));
            return Ok(Some(Finding {
                path: placed.path,
                place: placed.path,
                target: Target::Value("copy"),
                found: format!(in alloc;
                    "the block is {first} to {last}, and its copy {copy} to {end}"
                )?,
                help: String::from_str(
                    alloc,
                    "write a copy that lies wholly before or after its block",
                )?,
            }));
        }
    }
    Ok(None)
}
