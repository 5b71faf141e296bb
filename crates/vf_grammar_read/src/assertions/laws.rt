//! Laws of the parsers on lists. Each function does nothing; its contract is the law.

ghost use Rattle.vf_grammar_read.specs.assertions.Laws.{AssertionsAreRead, AssertionsHaveOneReading};

/// An assertion that tokens spell is read from them, where nothing behind goes on with it.
pub fn assertions_are_read()
    ensures { AssertionsAreRead }
{}

/// Two assertions that the same tokens spell are one.
pub fn assertions_have_one_reading()
    ensures { AssertionsHaveOneReading }
{}
