//! Laws of the parsers on lists. Each function does nothing; its contract is the law.

ghost use Rattle.vf_grammar_stops.specs.statements.Laws.{PlainStatementsStopAlike, PlainBodiesStopAlike};

/// A token is refused in a statement without annotations only where no such statement begins with the tokens up to it.
pub fn plain_statements_stop_alike()
    ensures { PlainStatementsStopAlike }
{}

/// The same of the body of a function.
pub fn plain_bodies_stop_alike()
    ensures { PlainBodiesStopAlike }
{}
