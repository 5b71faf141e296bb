//! Laws of the parsers on lists. Each function does nothing; its contract is the law.

ghost use Rattle.vf_grammar_stops.specs.patterns.Laws.{SharesStopAlike, AnySharesStopAlike, PatternsStopAlike, PatternListsStopAlike, AnyPatternsStopAlike, CasesStopAlike};

/// A token is refused in a share only where no share begins with the tokens up to it.
pub fn shares_stop_alike()
    ensures { SharesStopAlike }
{}

/// The same of a share that may be absent.
pub fn any_shares_stop_alike()
    ensures { AnySharesStopAlike }
{}

/// The same of a pattern.
pub fn patterns_stop_alike()
    ensures { PatternsStopAlike }
{}

/// The same of patterns between parentheses.
pub fn pattern_lists_stop_alike()
    ensures { PatternListsStopAlike }
{}

/// The same of patterns between parentheses that may be absent.
pub fn any_patterns_stop_alike()
    ensures { AnyPatternsStopAlike }
{}

/// The same of what a case is for.
pub fn cases_stop_alike()
    ensures { CasesStopAlike }
{}
