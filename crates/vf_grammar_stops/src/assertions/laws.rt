//! Laws of the parsers on lists. Each function does nothing; its contract is the law.

ghost use Rattle.vf_grammar_stops.specs.assertions.Laws.{AssertionsRefuseAlike, AssertionsStopAlike};

/// Where a token is refused in an assertion, one is refused in all tokens that are alike up to it.
pub fn assertions_refuse_alike()
    ensures { AssertionsRefuseAlike }
{}

/// A token is refused in an assertion only where no assertion begins with the tokens up to it.
pub fn assertions_stop_alike()
    ensures { AssertionsStopAlike }
{}
