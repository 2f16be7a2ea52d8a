//! What a table has at a key.

ghost use Rattle.std.specs.Prelude.{◌≡◌, ◌↔◌, IsTrue, length, map, is_some, option_map};
ghost use Rattle.toml.specs.Data.{get_member};
ghost use Rattle.toml.specs.View.{view, table_view};
ghost use Rattle.mt_conf.specs.Lookup.{array_at, number_at, text_at, has_key, has_number, has_text, has_array, has_table};

use toml::{Table, Value};

/// The value at a key.
pub fn at<'a>(table: &'a Table, key: &str) -> Option<&'a Value>
    ensures { option_map (λ v. view v.now) result ≡ get_member key.now (table_view table.now) }
{
    table.get(key)
}

pub fn has_key(table: &Table, key: &str) -> bool
    ensures { result ≡ has_key key.now (table_view table.now) }
{
    at(table, key).is_some()
}

/// The items of the array at a key, and none where there is no array.
pub fn array_at<'a>(table: &'a Table, key: &str) -> &'a [Value]
    ensures { map view result.now ≡ array_at key.now (table_view table.now) }
{
    match at(table, key) {
        Some(value) => match value.as_array() {
            Some(items) => items.as_slice(),
            None => &[],
        },
        None => &[],
    }
}

pub fn count_at(table: &Table, key: &str) -> usize
    ensures { result ≡ length (array_at key.now (table_view table.now)) }
{
    array_at(table, key).len()
}

/// The whole number at a key, and 0 where there is none.
pub fn number_at(table: &Table, key: &str) -> i64
    ensures { result ≡ number_at key.now (table_view table.now) }
{
    match at(table, key) {
        Some(value) => match value.as_integer() {
            Some(number) => number,
            None => 0,
        },
        None => 0,
    }
}

/// The text at a key, and the empty one where there is none.
pub fn text_at<'a>(table: &'a Table, key: &str) -> &'a str
    ensures { result.now ≡ text_at key.now (table_view table.now) }
{
    match at(table, key) {
        Some(value) => match value.as_str() {
            Some(text) => text,
            None => "",
        },
        None => "",
    }
}

pub fn has_number(table: &Table, key: &str) -> bool
    ensures { result ≡ has_number key.now (table_view table.now) }
{
    match at(table, key) {
        Some(value) => value.is_integer(),
        None => false,
    }
}

pub fn has_text(table: &Table, key: &str) -> bool
    ensures { result ≡ has_text key.now (table_view table.now) }
{
    match at(table, key) {
        Some(value) => value.is_str(),
        None => false,
    }
}

pub fn has_array(table: &Table, key: &str) -> bool
    ensures { result ≡ has_array key.now (table_view table.now) }
{
    match at(table, key) {
        Some(value) => value.is_array(),
        None => false,
    }
}

pub fn has_table(table: &Table, key: &str) -> bool
    ensures { result ≡ has_table key.now (table_view table.now) }
{
    match at(table, key) {
        Some(value) => value.is_table(),
        None => false,
    }
}
