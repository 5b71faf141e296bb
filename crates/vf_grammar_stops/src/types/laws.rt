//! Laws of the parsers on lists. Each function does nothing; its contract is the law.

ghost use Rattle.vf_grammar_stops.specs.types.Stops.{TypesStopAlike};

/// A token is refused in a type only where no type begins with the tokens up to it.
pub fn types_stop_alike()
    ensures { TypesStopAlike }
{}
