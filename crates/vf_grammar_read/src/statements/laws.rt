//! Laws of the parsers on lists. Each function does nothing; its contract is the law.

ghost use Rattle.vf_grammar_read.specs.statements.Laws.{BodiesAreRead, ListsAreRead, PlainBodiesHaveOneReading, StatementsAreRead};

/// A statement that tokens spell is read from them, where no `else` stands behind it.
pub fn statements_are_read()
    ensures { StatementsAreRead }
{}

/// The same of statements one after another, up to `}`.
pub fn lists_are_read()
    ensures { ListsAreRead }
{}

/// The same of the body of a function, whatever stands behind it.
pub fn bodies_are_read()
    ensures { BodiesAreRead }
{}

/// Two bodies without annotations that the same tokens spell are one.
pub fn plain_bodies_have_one_reading()
    ensures { PlainBodiesHaveOneReading }
{}
