//! The table of the rules.

ghost use Rattle.std.specs.Prelude.{◌≡◌, map};
ghost use Rattle.mt_explain.specs.Rows.{rule_in, rules};

use crate::row::{Book, Row};

static ROWS: [Row; 42] = [
    Row {
        book: Book::Configuration,
        number: 1,
        sentence: "the configuration is no TOML document in UTF-8",
    },
    Row {
        book: Book::Configuration,
        number: 2,
        sentence: "a table has a key that it does not take",
    },
    Row {
        book: Book::Configuration,
        number: 3,
        sentence: "a table lacks a key that may not be left out",
    },
    Row {
        book: Book::Configuration,
        number: 4,
        sentence: "a value has another type than its key takes",
    },
    Row {
        book: Book::Configuration,
        number: 5,
        sentence: "version is not 1 or 2",
    },
    Row {
        book: Book::Configuration,
        number: 6,
        sentence: "width is not 8, 16 or 32, nor 64 in version 2",
    },
    Row {
        book: Book::Configuration,
        number: 7,
        sentence: "ram is not 1 to 65536, or flash is not 0 to 65536",
    },
    Row {
        book: Book::Configuration,
        number: 8,
        sentence: "a word is not spelled with exactly width / 4 hexadecimal digits",
    },
    Row {
        book: Book::Configuration,
        number: 9,
        sentence: "there are not 1 to 16 sets, 1 to 64 blocks in a set, and at most 64 blocks in bgnd and in fgnd",
    },
    Row {
        book: Book::Configuration,
        number: 10,
        sentence: "an algorithm or a policy has no such name, or march stands beside another algorithm than march",
    },
    Row {
        book: Book::Configuration,
        number: 11,
        sentence: "a march is refused",
    },
    Row {
        book: Book::Configuration,
        number: 12,
        sentence: "a set with the algorithm transparent-galpat has a destructive block",
    },
    Row {
        book: Book::Configuration,
        number: 13,
        sentence: "a block is not in order or not within the RAM: 0 <= first <= last < ram",
    },
    Row {
        book: Book::Configuration,
        number: 14,
        sentence: "two blocks of a set share a word",
    },
    Row {
        book: Book::Configuration,
        number: 15,
        sentence: "atomic is not 1 to 64, cells not atomic to 65536, or retries not 0 to 16 or there in version 1",
    },
    Row {
        book: Book::Configuration,
        number: 16,
        sentence: "atomic, cells or interval_end of fls is out of range, or a flash block or copy leaves the flash",
    },
    Row {
        book: Book::Configuration,
        number: 17,
        sentence: "a flash block and its copy share a word",
    },
    Row {
        book: Book::Configuration,
        number: 18,
        sentence: "the configuration has more than 65536 bytes",
    },
    Row {
        book: Book::Configuration,
        number: 19,
        sentence: "no line ===== ends the configuration",
    },
    Row {
        book: Book::March,
        number: 1,
        sentence: "a march has another letter, digit or sign here than the notation asks for",
    },
    Row {
        book: Book::March,
        number: 2,
        sentence: "a march has more than 16 elements, or an element more than 8 operations",
    },
    Row {
        book: Book::March,
        number: 3,
        sentence: "a march reads before its first write",
    },
    Row {
        book: Book::March,
        number: 4,
        sentence: "a read expects another digit than the last write before it wrote",
    },
    Row {
        book: Book::March,
        number: 5,
        sentence: "no read expects 0, or none expects 1",
    },
    Row {
        book: Book::Line,
        number: 1,
        sentence: "no line has this word at this place, or the line ends too early",
    },
    Row {
        book: Book::Line,
        number: 2,
        sentence: "this is not spelled as the number or word that stands at this place",
    },
    Row {
        book: Book::Line,
        number: 3,
        sentence: "an address is not below the number of words",
    },
    Row {
        book: Book::Line,
        number: 4,
        sentence: "a word does not fit the width",
    },
    Row {
        book: Book::Line,
        number: 5,
        sentence: "an offset is below the one before it",
    },
    Row {
        book: Book::Line,
        number: 6,
        sentence: "a line has more than 16 requests",
    },
    Row {
        book: Book::Line,
        number: 7,
        sentence: "a handler has more than 8 operations",
    },
    Row {
        book: Book::Line,
        number: 8,
        sentence: "a handler may not call this",
    },
    Row {
        book: Book::Line,
        number: 9,
        sentence: "a bit is not below the width, or the second place of a fault names the word of its first",
    },
    Row {
        book: Book::Line,
        number: 10,
        sentence: "a line has more than 1024 bytes",
    },
    Row {
        book: Book::Line,
        number: 11,
        sentence: "a script has more than 1000000 lines",
    },
    Row {
        book: Book::Line,
        number: 12,
        sentence: "there is no such set, block or slice",
    },
    Row {
        book: Book::Line,
        number: 13,
        sentence: "the slice has more than 128 bits",
    },
    Row {
        book: Book::Line,
        number: 14,
        sentence: "faults are not located under the algorithm transparent-galpat",
    },
    Row {
        book: Book::Line,
        number: 15,
        sentence: "an index does not rise or is not that of a checked read, or the word is what was to be answered",
    },
    Row {
        book: Book::Line,
        number: 16,
        sentence: "a script that is verified has more than 16777216 bytes",
    },
    Row {
        book: Book::Line,
        number: 17,
        sentence: "no second line ===== ends the script that is verified",
    },
    Row {
        book: Book::Trace,
        number: 1,
        sentence: "a line of the trace is not the one that the replay writes",
    },
];

/// The rows of the rules: each rule once, in the order of books and numbers.
pub fn rows() -> &'static [Row]
    ensures { map rule_in result.now ≡ rules }
{
    &ROWS
}
