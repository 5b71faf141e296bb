//! Laws of the parsers on lists. Each function does nothing; its contract is the law.

ghost use Rattle.vf_grammar_stops.specs.whole_units.Laws.{WholeUnitsRefuseAlike, WholeUnitsStopAlike, RefusedWholesDoNotBegin};

/// Where a token is refused in a unit, one is refused in all tokens that are alike up to it.
pub fn whole_units_refuse_alike()
    ensures { WholeUnitsRefuseAlike }
{}

/// A token is refused in a unit only where no unit begins with the tokens up to it, the end of the tokens included.
pub fn whole_units_stop_alike()
    ensures { WholeUnitsStopAlike }
{}

/// Where `parse` refuses a place, nothing is unsupported, and no unit begins with the tokens up to there.
pub fn refused_wholes_do_not_begin()
    ensures { RefusedWholesDoNotBegin }
{}
