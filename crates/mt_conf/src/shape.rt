//! Rules on keys and types.

ghost use Rattle.std.specs.Prelude.{◌≡◌, Bool, codes, map, not, is_some, string_bytes};
ghost use Rattle.std.specs.BTreeMap.{keys};
ghost use Rattle.std.specs.List.{list_any, list_all};
ghost use Rattle.toml.specs.Data.{Members, as_table};
ghost use Rattle.toml.specs.View.{view, table_view};
ghost use Rattle.mt_conf.specs.Schema.{row_of, rows_of, is_refused};
ghost use Rattle.mt_conf.specs.Rules.{any_at, any_flash_block, in_table, in_fls, any_in_set, any_in_fls, is_listed, has_unlisted_key, is_missing, lacks_key, has_tables, has_kind, has_other_kind, has_wrong_type, breaks, breaks_somewhere};
ghost use Rattle.mt_conf.specs.Tests.{Tests};

use crate::lookup::{array_at, at, has_array, has_key, has_number, has_table, has_text};
use crate::schema::{Kind, Otherwise, Part, Row, rows_of};
use toml::{Table, Value};

/// A rule on the keys of a table.
#[derive(Clone, Copy)]
pub enum KeyRule {
    UnknownKey,
    MissingKey,
    WrongType,
}

/// A value is a table of which the test holds.
fn passes<F: Fn(&Table) -> bool>(value: &Value, test: &F) -> bool
    requires { F.IsAlwaysCallable test.now }
    ensures { (p : Members → Bool) → Tests F.Fn test.now p → result ≡ in_table p (view value.now) }
{
    match value.as_table() {
        Some(table) => test(table),
        None => false,
    }
}

/// A test holds of some table in the array at a key.
pub fn any_table<F: Fn(&Table) -> bool>(table: &Table, key: &str, test: &F) -> bool
    requires { F.IsAlwaysCallable test.now }
    ensures { (p : Members → Bool) → Tests F.Fn test.now p → result ≡ any_at key.now p (table_view table.now) }
{
    for value in array_at(table, key) {
        if passes(value, test) {
            return true;
        }
    }
    false
}

/// There is a table `fls`, and a test holds of it.
pub fn in_fls<F: Fn(&Table) -> bool>(table: &Table, test: &F) -> bool
    requires { F.IsAlwaysCallable test.now }
    ensures { (p : Members → Bool) → Tests F.Fn test.now p → result ≡ in_fls p (table_view table.now) }
{
    match at(table, "fls") {
        Some(value) => passes(value, test),
        None => false,
    }
}

/// A test holds of some flash block of the table `fls`.
pub fn any_flash_block<F: Fn(&Table) -> bool>(fls: &Table, test: &F) -> bool
    requires { F.IsAlwaysCallable test.now }
    ensures { (p : Members → Bool) → Tests F.Fn test.now p → result ≡ any_flash_block p (table_view fls.now) }
{
    any_table(fls, "bgnd", test) || any_table(fls, "fgnd", test)
}

fn is_listed(rows: &[Row], key: &str) -> bool
    ensures { result ≡ is_listed (map row_of rows.now) key.now }
{
    match rows {
        [] => false,
        [row, rest @ ..] => row.key == key || is_listed(rest, key),
    }
}

fn is_unlisted(rows: &[Row], key: &String) -> bool
    ensures { result ≡ not (is_listed (map row_of rows.now) (string_bytes key.now)) }
{
    !is_listed(rows, key.as_str())
}

fn any_unlisted(rows: &[Row], table: &Table) -> bool
    ensures { result ≡ list_any (λ key. not (is_listed (map row_of rows.now) (string_bytes key))) (keys table.now) }
{
    table.keys().any(|key| is_unlisted(rows, key))
}

#[tactic(auto, unfolding(crate::specs::Rules::has_unlisted_key))]
fn has_unlisted_key(part: Part, table: &Table) -> bool
    ensures { result ≡ has_unlisted_key part (table_view table.now) }
{
    any_unlisted(rows_of(part), table)
}

fn is_refused(otherwise: Otherwise) -> bool
    ensures { result ≡ is_refused otherwise }
{
    matches!(otherwise, Otherwise::Refused)
}

fn any_missing(rows: &[Row], table: &Table) -> bool
    ensures { result ≡ list_any (is_missing (table_view table.now)) (map row_of rows.now) }
{
    match rows {
        [] => false,
        [row, rest @ ..] => {
            (is_refused(row.otherwise) && !has_key(table, row.key)) || any_missing(rest, table)
        }
    }
}

#[tactic(auto, unfolding(crate::specs::Rules::lacks_key))]
fn lacks_key(part: Part, table: &Table) -> bool
    ensures { result ≡ lacks_key part (table_view table.now) }
{
    any_missing(rows_of(part), table)
}

fn are_tables(values: &[Value]) -> bool
    ensures { result ≡ list_all (λ v. is_some (as_table (view v))) values.now }
{
    values.iter().all(|value| value.is_table())
}

fn has_tables(table: &Table, key: &str) -> bool
    ensures { result ≡ has_tables key.now (table_view table.now) }
{
    has_array(table, key) && are_tables(array_at(table, key))
}

fn has_kind(kind: Kind, table: &Table, key: &str) -> bool
    ensures { result ≡ has_kind kind key.now (table_view table.now) }
{
    match kind {
        Kind::Number => has_number(table, key),
        Kind::Text => has_text(table, key),
        Kind::Table => has_table(table, key),
        Kind::Tables => has_tables(table, key),
    }
}

fn any_other_kind(rows: &[Row], table: &Table) -> bool
    ensures { result ≡ list_any (has_other_kind (table_view table.now)) (map row_of rows.now) }
{
    match rows {
        [] => false,
        [row, rest @ ..] => {
            (has_key(table, row.key) && !has_kind(row.kind, table, row.key))
                || any_other_kind(rest, table)
        }
    }
}

#[tactic(auto, unfolding(crate::specs::Rules::has_wrong_type))]
fn has_wrong_type(part: Part, table: &Table) -> bool
    ensures { result ≡ has_wrong_type part (table_view table.now) }
{
    any_other_kind(rows_of(part), table)
}

fn breaks(rule: KeyRule, part: Part, table: &Table) -> bool
    ensures { result ≡ breaks rule part (table_view table.now) }
{
    match rule {
        KeyRule::UnknownKey => has_unlisted_key(part, table),
        KeyRule::MissingKey => lacks_key(part, table),
        KeyRule::WrongType => has_wrong_type(part, table),
    }
}

fn breaks_in_set(rule: KeyRule, set: &Table) -> bool
    ensures { result ≡ any_in_set (breaks rule) (table_view set.now) }
{
    breaks(rule, Part::Set, set)
        || any_table(set, "block", &|block| breaks(rule, Part::Block, block))
}

fn breaks_in_fls(rule: KeyRule, fls: &Table) -> bool
    ensures { result ≡ any_in_fls (breaks rule) (table_view fls.now) }
{
    breaks(rule, Part::Fls, fls)
        || any_flash_block(fls, &|block| breaks(rule, Part::FlashBlock, block))
}

fn breaks_in_sets(rule: KeyRule, table: &Table) -> bool
    ensures { result ≡ any_at (codes "set") (any_in_set (breaks rule)) (table_view table.now) }
{
    any_table(table, "set", &|set| breaks_in_set(rule, set))
}

/// Whether a table of the document breaks the rule.
#[tactic(auto, unfolding(crate::specs::Rules::breaks_somewhere))]
pub fn breaks_somewhere(rule: KeyRule, table: &Table) -> bool
    ensures { result ≡ breaks_somewhere rule (table_view table.now) }
{
    breaks(rule, Part::Top, table)
        || breaks_in_sets(rule, table)
        || in_fls(table, &|fls| breaks_in_fls(rule, fls))
}
