//! The tables of a configuration, and their names.

use mt_conf::Part;
use std::alloc::{AllocError, Global};
use toml::{Table, Value};

/// A table of a configuration: the top table, a set, a block of a set, `fls`, or a block of it. Sets and blocks count
/// from 0.
#[derive(Clone, Copy, Debug, PartialEq, Eq)]
pub enum Path {
    Top,
    Set(usize),
    Block { set: usize, block: usize },
    Fls,
    Bgnd(usize),
    Fgnd(usize),
}

impl Path {
    /// Which keys the table takes.
    pub fn part(self) -> Part {
        match self {
            Path::Top => Part::Top,
            Path::Set(_) => Part::Set,
            Path::Block { .. } => Part::Block,
            Path::Fls => Part::Fls,
            Path::Bgnd(_) => Part::FlashBlock,
            Path::Fgnd(_) => Part::FlashBlock,
        }
    }

    /// The table's name for people.
    pub fn name(self, alloc: Global) -> Result<String, AllocError> {
        match self {
            Path::Top => String::from_str(alloc, "the top table"),
            Path::Set(set) => format!(in alloc; "set {set}"),
            Path::Block { set, block } => format!(in alloc; "block {block} of set {set}"),
            Path::Fls => String::from_str(alloc, "fls"),
            Path::Bgnd(block) => format!(in alloc; "block {block} of bgnd"),
            Path::Fgnd(block) => format!(in alloc; "block {block} of fgnd"),
        }
    }
}

/// A table, and where it stands.
#[derive(Clone, Copy)]
pub struct Placed<'t> {
    pub path: Path,
    pub table: &'t Table,
}

/// The items of the array at a key; none if there is no array.
pub fn items_at<'t>(table: &'t Table, key: &str) -> &'t [Value] {
    match table.get(key) {
        Some(value) => match value.as_array() {
            Some(items) => items.as_slice(),
            None => &[],
        },
        None => &[],
    }
}

fn push_blocks<'t>(
    tables: &mut Vec<Placed<'t>>,
    set: usize,
    of: &'t Table,
) -> Result<(), AllocError> {
    for (block, value) in items_at(of, "block").iter().enumerate() {
        if let Some(table) = value.as_table() {
            tables.push(Placed {
                path: Path::Block { set, block },
                table,
            })?;
        }
    }
    Ok(())
}

fn push_sets<'t>(tables: &mut Vec<Placed<'t>>, top: &'t Table) -> Result<(), AllocError> {
    for (set, value) in items_at(top, "set").iter().enumerate() {
        if let Some(table) = value.as_table() {
            tables.push(Placed {
                path: Path::Set(set),
                table,
            })?;
            push_blocks(tables, set, table)?;
        }
    }
    Ok(())
}

fn push_flash<'t>(tables: &mut Vec<Placed<'t>>, fls: &'t Table) -> Result<(), AllocError> {
    tables.push(Placed {
        path: Path::Fls,
        table: fls,
    })?;
    for (block, value) in items_at(fls, "bgnd").iter().enumerate() {
        if let Some(table) = value.as_table() {
            tables.push(Placed {
                path: Path::Bgnd(block),
                table,
            })?;
        }
    }
    for (block, value) in items_at(fls, "fgnd").iter().enumerate() {
        if let Some(table) = value.as_table() {
            tables.push(Placed {
                path: Path::Fgnd(block),
                table,
            })?;
        }
    }
    Ok(())
}

/// The tables of a document, as they stand in it: the top table, the sets with their blocks, and `fls` with its blocks.
pub fn tables_of<'t>(alloc: Global, top: &'t Table) -> Result<Vec<Placed<'t>>, AllocError> {
    let mut tables = Vec::new(alloc);
    tables.push(Placed {
        path: Path::Top,
        table: top,
    })?;
    push_sets(&mut tables, top)?;
    if let Some(fls) = top.get("fls").and_then(Value::as_table) {
        push_flash(&mut tables, fls)?;
    }
    Ok(tables)
}
