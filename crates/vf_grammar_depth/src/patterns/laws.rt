//! Laws of the parsers on lists. Each function does nothing; its contract is the law.

ghost use Rattle.vf_grammar_depth.specs.patterns.Deep.{AnyPatternsDeepen, CasesDeepen, PatternListsDeepen, PatternsDeepen, SharesDeepen};

/// A share is never too deep, nor is a share that may be absent.
pub fn shares_deepen()
    ensures { SharesDeepen }
{}

/// Where a pattern nests too deep, one that may nest two deeper is read past that token.
pub fn patterns_deepen()
    ensures { PatternsDeepen }
{}

/// The same of patterns between parentheses.
pub fn pattern_lists_deepen()
    ensures { PatternListsDeepen }
{}

/// The same of patterns between parentheses that may be absent.
pub fn any_patterns_deepen()
    ensures { AnyPatternsDeepen }
{}

/// What a case is for is never too deep.
pub fn cases_deepen()
    ensures { CasesDeepen }
{}
