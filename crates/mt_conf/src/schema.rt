//! The tables of a configuration: their keys, what stands at each, and what stands for one that is left out.

ghost use Rattle.std.specs.Prelude.{◌≡◌, map};
ghost use Rattle.mt_conf.specs.Schema.{row_of, rows_of, default_number, otherwise_in, otherwise_of};

/// A table of the document.
#[derive(Clone, Copy)]
pub enum Part {
    Top,
    Set,
    Block,
    Fls,
    FlashBlock,
}

/// What a value is.
#[derive(Clone, Copy)]
pub enum Kind {
    Number,
    Text,
    Table,
    Tables,
}

/// What stands for a key that is left out.
#[derive(Clone, Copy)]
pub enum Otherwise {
    Refused,
    Number(u32),
    ZeroBits,
    MarchCMinus,
    NoBlocks,
    NoFlashTest,
}

/// A key of a table.
#[derive(Clone, Copy)]
pub struct Row {
    pub key: &'static str,
    pub kind: Kind,
    pub otherwise: Otherwise,
}

static TOP: [Row; 7] = [
    Row {
        key: "version",
        kind: Kind::Number,
        otherwise: Otherwise::Refused,
    },
    Row {
        key: "width",
        kind: Kind::Number,
        otherwise: Otherwise::Refused,
    },
    Row {
        key: "ram",
        kind: Kind::Number,
        otherwise: Otherwise::Refused,
    },
    Row {
        key: "flash",
        kind: Kind::Number,
        otherwise: Otherwise::Number(0),
    },
    Row {
        key: "initial",
        kind: Kind::Text,
        otherwise: Otherwise::ZeroBits,
    },
    Row {
        key: "set",
        kind: Kind::Tables,
        otherwise: Otherwise::Refused,
    },
    Row {
        key: "fls",
        kind: Kind::Table,
        otherwise: Otherwise::NoFlashTest,
    },
];

static SET: [Row; 7] = [
    Row {
        key: "algorithm",
        kind: Kind::Text,
        otherwise: Otherwise::Refused,
    },
    Row {
        key: "march",
        kind: Kind::Text,
        otherwise: Otherwise::MarchCMinus,
    },
    Row {
        key: "background",
        kind: Kind::Text,
        otherwise: Otherwise::ZeroBits,
    },
    Row {
        key: "atomic",
        kind: Kind::Number,
        otherwise: Otherwise::Refused,
    },
    Row {
        key: "cells",
        kind: Kind::Number,
        otherwise: Otherwise::Refused,
    },
    Row {
        key: "retries",
        kind: Kind::Number,
        otherwise: Otherwise::Number(2),
    },
    Row {
        key: "block",
        kind: Kind::Tables,
        otherwise: Otherwise::Refused,
    },
];

static BLOCK: [Row; 4] = [
    Row {
        key: "first",
        kind: Kind::Number,
        otherwise: Otherwise::Refused,
    },
    Row {
        key: "last",
        kind: Kind::Number,
        otherwise: Otherwise::Refused,
    },
    Row {
        key: "policy",
        kind: Kind::Text,
        otherwise: Otherwise::Refused,
    },
    Row {
        key: "fill",
        kind: Kind::Text,
        otherwise: Otherwise::ZeroBits,
    },
];

static FLS: [Row; 5] = [
    Row {
        key: "atomic",
        kind: Kind::Number,
        otherwise: Otherwise::Refused,
    },
    Row {
        key: "cells",
        kind: Kind::Number,
        otherwise: Otherwise::Refused,
    },
    Row {
        key: "interval_end",
        kind: Kind::Number,
        otherwise: Otherwise::Refused,
    },
    Row {
        key: "bgnd",
        kind: Kind::Tables,
        otherwise: Otherwise::NoBlocks,
    },
    Row {
        key: "fgnd",
        kind: Kind::Tables,
        otherwise: Otherwise::NoBlocks,
    },
];

static FLASH_BLOCK: [Row; 3] = [
    Row {
        key: "first",
        kind: Kind::Number,
        otherwise: Otherwise::Refused,
    },
    Row {
        key: "last",
        kind: Kind::Number,
        otherwise: Otherwise::Refused,
    },
    Row {
        key: "copy",
        kind: Kind::Number,
        otherwise: Otherwise::Refused,
    },
];

/// The number that stands for a key that is left out, where one does.
pub fn default_number(otherwise: Otherwise) -> u32
    ensures { result ≡ default_number otherwise }
{
    match otherwise {
        Otherwise::Number(number) => number,
        _ => 0,
    }
}

fn otherwise_in(key: &str, rows: &[Row]) -> Otherwise
    ensures { result ≡ otherwise_in key.now (map row_of rows.now) }
{
    match rows {
        [] => Otherwise::Refused,
        [row, rest @ ..] => {
            if row.key == key {
                row.otherwise
            } else {
                otherwise_in(key, rest)
            }
        }
    }
}

/// What stands for a key that a table leaves out.
pub fn otherwise_of(part: Part, key: &str) -> Otherwise
    ensures { result ≡ otherwise_of part key.now }
{
    otherwise_in(key, rows_of(part))
}

/// The rows of a table.
pub fn rows_of(part: Part) -> &'static [Row]
    ensures { map row_of result.now ≡ rows_of part }
{
    match part {
        Part::Top => &TOP,
        Part::Set => &SET,
        Part::Block => &BLOCK,
        Part::Fls => &FLS,
        Part::FlashBlock => &FLASH_BLOCK,
    }
}
