//! Laws of the parsers on lists. Each function does nothing; its contract is the law.

ghost use Rattle.vf_grammar_stops.specs.terms.Laws.{SortsStopAlike, TermsStopAlike};

/// A token is refused in a sort only where no sort begins with the tokens up to it.
pub fn sorts_stop_alike()
    ensures { SortsStopAlike }
{}

/// The same of an expression of ghost text.
pub fn terms_stop_alike()
    ensures { TermsStopAlike }
{}
