//! Laws of what C is told.

ghost use Rattle.mt_c.specs.Laws.{LeastRulesAreTold, ToldRulesAreBroken};

use mt_march::{canonical_spells, refusals_are_of_texts, the_least_rule_refuses};

/// A set-up tells the rule with the least number among those that the settings and the text break, and none where they break
/// none.
pub fn the_least_rule_is_told()
    ensures broken { ToldRulesAreBroken }
    ensures least { LeastRulesAreTold }
{
    canonical_spells();
    refusals_are_of_texts();
    the_least_rule_refuses();
}
