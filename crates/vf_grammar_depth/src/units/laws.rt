//! Laws of the parsers on lists. Each function does nothing; its contract is the law.

ghost use Rattle.vf_grammar_depth.specs.units.Deep.{PlainItemsDeepen, PlainUnitsDeepen, TooDeepUnitsGoOn};

/// Where an item nests too deep, one that may nest deeper is read past that token.
pub fn plain_items_deepen()
    ensures { PlainItemsDeepen }
{}

/// The same of a unit.
pub fn plain_units_deepen()
    ensures { PlainUnitsDeepen }
{}

/// Where `parse_plain` answers that a place is too deep, a unit that may nest deeper is read past it.
pub fn too_deep_units_go_on()
    ensures { TooDeepUnitsGoOn }
{}
