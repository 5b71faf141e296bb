//! Laws of the parsers on lists. Each function does nothing; its contract is the law.

ghost use Rattle.vf_grammar_read.specs.terms.Laws.{SortsAreRead, TermsAreRead, TermsHaveOneReading};

/// A sort that tokens spell is read from them, where nothing behind goes on with it.
pub fn sorts_are_read()
    ensures { SortsAreRead }
{}

/// An expression that tokens spell is read from them, where nothing behind goes on with it.
pub fn terms_are_read()
    ensures { TermsAreRead }
{}

/// Two expressions that the same tokens spell are one.
pub fn terms_have_one_reading()
    ensures { TermsHaveOneReading }
{}
