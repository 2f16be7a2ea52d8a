//! Laws of marches and their texts.

ghost use Rattle.mt_march.specs.Laws.{AcceptedBreaksNoRule, AcceptedIsMarch, CanonicalSpells, SpacesFollowSemicolons, SpellsOne, PlacedIsSpelled, SpelledHasPlaces, PlacesAreOne, RefusalIsOfText, UnrefusedIsMarch, RefusalIsLeast};

/// The march of a text breaks no rule exactly where it is an accepted one, which has a text.
pub fn accepted_breaks_no_rule()
    ensures rules { AcceptedBreaksNoRule }
    ensures march { AcceptedIsMarch }
{}

/// The canonical text spells its march, with a space after each semicolon and nowhere else, and no text spells two.
pub fn canonical_spells()
    ensures spells { CanonicalSpells }
    ensures spaces { SpacesFollowSemicolons }
    ensures one { SpellsOne }
{}

/// The march of a text has its elements, its operations and its closing brace at one place each.
pub fn marches_have_places()
    ensures spelled { PlacedIsSpelled }
    ensures placed { SpelledHasPlaces }
    ensures one { PlacesAreOne }
{}

/// The refusal of a text, as a function, is the one that refuses it; a text without one spells an accepted march.
pub fn refusals_are_of_texts()
    ensures refused { RefusalIsOfText }
    ensures unrefused { UnrefusedIsMarch }
{}

/// A text breaks the rule that its refusal names, and none with a lesser number.
pub fn the_least_rule_refuses()
    ensures { RefusalIsLeast }
{}
