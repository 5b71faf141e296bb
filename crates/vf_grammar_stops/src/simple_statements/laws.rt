//! Laws of the parsers on lists. Each function does nothing; its contract is the law.

ghost use Rattle.vf_grammar_stops.specs.simple_statements.Laws.{DeclaredStopAlike, ValuesStopAlike, SimplesStopAlike, FirstsStopAlike};

/// A token is refused in a type and a name only where no type and name begin with the tokens up to it.
pub fn declared_stop_alike()
    ensures { DeclaredStopAlike }
{}

/// The same of a value behind `=`, or none.
pub fn values_stop_alike()
    ensures { ValuesStopAlike }
{}

/// The same of an assignment or a call.
pub fn simples_stop_alike()
    ensures { SimplesStopAlike }
{}

/// The same of what stands first in a `for`.
pub fn firsts_stop_alike()
    ensures { FirstsStopAlike }
{}
