//! Laws of the parsers on lists. Each function does nothing; its contract is the law.

ghost use Rattle.vf_grammar_read.specs.patterns.Laws.{SharesAreRead, AnySharesAreRead, PatternsAreRead, PatternListsAreRead, AnyPatternsAreRead, CasesAreRead};

/// A share that tokens spell is read from them; so is one that may be absent, where no `[` stands behind.
pub fn shares_are_read()
    ensures whole { SharesAreRead }
    ensures any { AnySharesAreRead }
{}

/// Patterns that tokens spell are read from them: one, where nothing behind goes on with it, a list of them between
/// parentheses, and one that may be absent, where no `(` stands behind.
pub fn patterns_are_read()
    ensures one { PatternsAreRead }
    ensures listed { PatternListsAreRead }
    ensures any { AnyPatternsAreRead }
{}

/// What a case is for is read from the tokens that spell it, where no `(` stands behind.
pub fn cases_are_read()
    ensures { CasesAreRead }
{}
