//! Laws of the parsers on lists. Each function does nothing; its contract is the law.

ghost use Rattle.vf_grammar_depth.specs.whole_units.Deep.{TooDeepWholesGoOn, WholeUnitsDeepen};

/// Where a unit nests too deep, one in which two more may nest is read past that token.
pub fn whole_units_deepen()
    ensures { WholeUnitsDeepen }
{}

/// Where `parse` answers that a place is too deep, a unit in which two more may nest is read past it.
pub fn too_deep_wholes_go_on()
    ensures { TooDeepWholesGoOn }
{}
