//! Laws of the parsers on lists. Each function does nothing; its contract is the law.

ghost use Rattle.vf_grammar_stops.specs.expressions.Laws.{ExpressionsStopAlike, PostfixesStopAlike};

/// A token is refused in an expression only where no expression begins with the tokens up to it.
pub fn expressions_stop_alike()
    ensures { ExpressionsStopAlike }
{}

/// The same of a primary expression with what stands behind it.
pub fn postfixes_stop_alike()
    ensures { PostfixesStopAlike }
{}
