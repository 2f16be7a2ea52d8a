//! Rules, and the row of the table that each has.

ghost use Rattle.std.specs.Prelude.{◌≡◌, find, option_map};
ghost use Rattle.std.specs.Option.{option_copied};
ghost use Rattle.mt_explain.specs.Rows.{rule_of, same_book, same_rule, rule_in, known};

use crate::table::rows;
use mt_replay::Status;

/// What a rule is a rule of: configurations; the texts of marches; the lines of a script, of a location or of a claim;
/// or the lines of a trace.
#[derive(Clone, Copy, Debug, PartialEq, Eq)]
pub enum Book {
    Configuration,
    March,
    Line,
    Trace,
}

/// A rule: its book, and its number there, which a refusal gives.
#[derive(Clone, Copy, Debug, PartialEq, Eq)]
pub struct Rule {
    pub book: Book,
    pub number: u8,
}

/// A row of the table: a rule's book and number, and the one sentence that says how it is broken.
#[derive(Clone, Copy, Debug)]
pub struct Row {
    pub book: Book,
    pub number: u8,
    pub sentence: &'static str,
}

fn same_book(a: Book, b: Book) -> bool
    ensures { result ≡ same_book a b }
{
    match (a, b) {
        (Book::Configuration, Book::Configuration) => true,
        (Book::March, Book::March) => true,
        (Book::Line, Book::Line) => true,
        (Book::Trace, Book::Trace) => true,
        _ => false,
    }
}

fn is_row_of(rule: Rule, row: &Row) -> bool
    ensures { result ≡ same_rule rule (rule_in row.now) }
{
    same_book(rule.book, row.book) && rule.number == row.number
}

/// The rule by which an input with this status is refused, if it is.
pub fn rule_of(status: &Status) -> Option<Rule>
    ensures { result ≡ rule_of status.now }
{
    let (book, number) = match status {
        Status::BadConfig { code } => (Book::Configuration, *code),
        Status::BadScript { code, .. } => (Book::Line, *code),
        Status::Differs { .. } => (Book::Trace, 1),
        _ => return None,
    };
    Some(Rule { book, number })
}

fn row_in(table: &'static [Row], rule: Rule) -> Option<&'static Row>
    ensures { option_copied result ≡ find (λ row. same_rule rule (rule_in row)) table.now }
{
    table.iter().find(|row| is_row_of(rule, row))
}

/// The row of a rule, if there is such a rule.
pub fn row_of(rule: Rule) -> Option<&'static Row>
    ensures { option_map (λ row. rule_in row.now) result ≡ known rule }
{
    row_in(rows(), rule)
}
