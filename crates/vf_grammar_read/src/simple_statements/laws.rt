//! Laws of the parsers on lists. Each function does nothing; its contract is the law.

ghost use Rattle.vf_grammar_read.specs.simple_statements.Laws.{DeclaredAreRead, FirstsAreRead, SimplesAreRead, SimplesHaveOneReading, ValuesAreRead};

/// A type and a name that tokens spell are read from them.
pub fn declared_are_read()
    ensures { DeclaredAreRead }
{}

/// The same of a value behind `=`, or none, where nothing behind goes on with it.
pub fn values_are_read()
    ensures { ValuesAreRead }
{}

/// The same of an assignment or a call.
pub fn simples_are_read()
    ensures { SimplesAreRead }
{}

/// The same of what stands first in a `for`.
pub fn firsts_are_read()
    ensures { FirstsAreRead }
{}

/// Two assignments or calls that the same tokens spell are one.
pub fn simples_have_one_reading()
    ensures { SimplesHaveOneReading }
{}
