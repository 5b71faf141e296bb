//! Laws of the parsers on lists. Each function does nothing; its contract is the law.

ghost use Rattle.vf_grammar_stops.specs.units.Laws.{PlainItemsStopAlike, PlainUnitsStopAlike, RefusedUnitsDoNotBegin};

/// A token is refused in an item without annotations only where no such item begins with the tokens up to it.
pub fn plain_items_stop_alike()
    ensures { PlainItemsStopAlike }
{}

/// The same of a unit, the end of the tokens included.
pub fn plain_units_stop_alike()
    ensures { PlainUnitsStopAlike }
{}

/// Where `parse_plain` refuses a place, nothing is unsupported, and no unit begins with the tokens up to there.
pub fn refused_units_do_not_begin()
    ensures { RefusedUnitsDoNotBegin }
{}
