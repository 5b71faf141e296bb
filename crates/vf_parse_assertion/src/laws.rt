//! Laws of the parsers on lists. Each function does nothing; its contract is the law.

ghost use Rattle.vf_parse_assertion.specs.Laws.{AssertionsAreSpelled};

/// An assertion that is read is spelled by the tokens that are taken, and nests no deeper than is allowed.
pub fn assertions_are_spelled()
    ensures { AssertionsAreSpelled }
{}
