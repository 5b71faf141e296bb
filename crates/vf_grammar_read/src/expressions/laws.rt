//! Laws of the parsers on lists. Each function does nothing; its contract is the law.

ghost use Rattle.vf_grammar_read.specs.expressions.Laws.{ExpressionsAreRead, ExpressionsHaveOneReading, PostfixesAreRead, TypesAreRead};

/// An expression that tokens spell is read from them, where nothing behind goes on with it.
pub fn expressions_are_read()
    ensures { ExpressionsAreRead }
{}

/// Two expressions that the same tokens spell are one.
pub fn expressions_have_one_reading()
    ensures { ExpressionsHaveOneReading }
{}

/// The same as the first of a primary expression with what stands behind it.
pub fn postfixes_are_read()
    ensures { PostfixesAreRead }
{}

/// A type that tokens spell is read from them, where nothing behind goes on with it.
pub fn types_are_read()
    ensures { TypesAreRead }
{}
