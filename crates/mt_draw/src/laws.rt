//! Laws of pictures.

ghost use Rattle.mt_draw.specs.Laws.{PlacesAreInside, PlacesKeepOrder, TextIsKept, TextIsNoMarkup};

/// Text that is written in a page is no markup, and nothing of it is lost.
pub fn text_is_text()
    ensures no_markup { TextIsNoMarkup }
    ensures kept { TextIsKept }
{}

/// Of two numbers the lesser one stands no further along a line, and none stands off it.
pub fn places_are_in_order()
    ensures order { PlacesKeepOrder }
    ensures inside { PlacesAreInside }
{}
