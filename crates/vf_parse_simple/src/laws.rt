//! Laws of the parsers on lists. Each function does nothing; its contract is the law.

ghost use Rattle.vf_parse_simple.specs.Laws.{DeclaredAreSpelled, ValuesAreSpelled, SimplesAreSpelled, FirstsAreSpelled};

/// A type and a name that were read are spelled by the tokens that were taken.
pub fn declared_are_spelled()
    ensures { DeclaredAreSpelled }
{}

/// A value behind `=` is spelled by the tokens that were taken, and nests no deeper than it may.
pub fn values_are_spelled()
    ensures { ValuesAreSpelled }
{}

/// The same of an assignment or a call.
pub fn simples_are_spelled()
    ensures { SimplesAreSpelled }
{}

/// The same of what stands first in a `for`.
pub fn firsts_are_spelled()
    ensures { FirstsAreSpelled }
{}
