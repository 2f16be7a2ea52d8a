//! Laws of readings.

ghost use Rattle.mt_conf.specs.Laws.{RefusalIsLeast, AcceptedBreaksNoRule, AcceptedIsTaken, FieldsAreEntries, RefusalHasLeastNumber, AcceptedHasListedKeys, EachIsAccepted};

use mt_hex::words_fit;
use mt_march::{canonical_spells, refusals_are_of_texts, the_least_rule_refuses};

/// A refusal's rule is broken and every rule before it holds; where nothing is refused, every rule holds.
pub fn refusal_is_least()
    ensures least { RefusalIsLeast }
    ensures none { AcceptedBreaksNoRule }
{}

/// The configuration of a table that breaks no rule is one that the modules take.
pub fn accepted_is_taken()
    ensures { AcceptedIsTaken }
{
    words_fit();
    refusals_are_of_texts();
}

/// Each field of the configuration of a table that breaks no rule is the table's entry of that name, or its default.
pub fn fields_are_entries()
    ensures { FieldsAreEntries }
{
    refusals_are_of_texts();
}

/// The refusal of a table has the least number of those of the rules that it breaks.
pub fn the_least_number_is_told()
    ensures { RefusalHasLeastNumber }
{}

/// A table that breaks no rule has no key that is not listed, and neither have its tables.
pub fn accepted_keys_are_listed()
    ensures { AcceptedHasListedKeys }
{}

/// A table breaks no rule if its entries are the fields of a configuration that the modules take, and it has no other keys.
pub fn each_is_accepted()
    ensures { EachIsAccepted }
{
    canonical_spells();
    refusals_are_of_texts();
    the_least_rule_refuses();
}
