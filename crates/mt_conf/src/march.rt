//! The rule on marches, and the march of a text.

ghost use Rattle.std.specs.Prelude.{◌≡◌, ◌≤◌, ◌+◌, ℕ, None, codes, map, length, option_map, IfOk};
ghost use Rattle.toml.specs.View.{view, table_view};
ghost use Rattle.mt_march.specs.Reading.{march_refusal};
ghost use Rattle.mt_march.specs.Value.{march_of};
ghost use Rattle.mt_conf.specs.Lookup.{array_at, fields};
ghost use Rattle.mt_conf.specs.Outcome.{march_with, march_of_set, refused_in_set, refused_from, refused_march};

use crate::config::ConfigRefusal;
use crate::lookup::{array_at, has_key, text_at};
use mt_march::{March, MarchRefusal, read_march};
use std::alloc::AllocError;
use toml::{Table, Value};

/// Why a text is no march, if it is none.
fn march_refusal(text: &str) -> Option<MarchRefusal>
    ensures { result ≡ march_refusal text.now }
{
    match read_march(text.as_bytes()) {
        Ok(_) => None,
        Err(refusal) => Some(refusal),
    }
}

/// The march of a text that is not refused. A text that is refused, which none is here, is want of memory.
pub fn march_of(text: &str) -> Result<March, AllocError>
    ensures { IfOk result (λ march. march ≡ march_with (march_of text.now)) }
{
    match read_march(text.as_bytes()) {
        Ok(march) => Ok(march),
        Err(_) => Err(AllocError),
    }
}

fn refusal_of(set: u32, refusal: Option<MarchRefusal>) -> Option<ConfigRefusal>
    ensures { result ≡ option_map (march_of_set set) refusal }
{
    match refusal {
        Some(refusal) => Some(ConfigRefusal::March {
            set,
            kind: refusal.kind,
            place: refusal.place,
        }),
        None => None,
    }
}

#[tactic(auto, unfolding(crate::specs::Outcome::refused_in_set))]
fn refused_in_set(set: u32, table: &Table) -> Option<ConfigRefusal>
    ensures { result ≡ refused_in_set set (table_view table.now) }
{
    if has_key(table, "march") {
        refusal_of(set, march_refusal(text_at(table, "march")))
    } else {
        None
    }
}

#[tactic(auto, unfolding(crate::specs::Outcome::refused_in_set))]
fn refused_at(set: u32, value: &Value) -> Option<ConfigRefusal>
    ensures { result ≡ refused_in_set set (fields (view value.now)) }
{
    match value.as_table() {
        Some(table) => refused_in_set(set, table),
        None => None,
    }
}

/// The first set, of those from this number on, whose march is refused.
fn refused_from(set: u32, values: &[Value]) -> Option<ConfigRefusal>
    requires { set + length values.now ≤ 16 }
    ensures { result ≡ refused_from set (map view values.now) }
{
    match values {
        [] => None,
        [value, rest @ ..] => match refused_at(set, value) {
            Some(refusal) => Some(refusal),
            None => refused_from(set + 1, rest),
        },
    }
}

/// The first refused march of a table with at most 16 sets.
#[tactic(auto, unfolding(crate::specs::Outcome::refused_march))]
pub fn refused_march(table: &Table) -> Option<ConfigRefusal>
    requires { length (array_at (codes "set") (table_view table.now)) ≤ 16 }
    ensures { result ≡ refused_march (table_view table.now) }
{
    refused_from(0, array_at(table, "set"))
}
