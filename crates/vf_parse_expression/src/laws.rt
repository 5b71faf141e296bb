//! Laws of the parsers on lists. Each function does nothing; its contract is the law.

ghost use Rattle.vf_parse_expression.specs.Laws.{ExpressionsAreSpelled, PostfixesAreSpelled};

/// An expression that was read is spelled by the tokens that were taken, and nests no deeper than it may.
pub fn expressions_are_spelled()
    ensures { ExpressionsAreSpelled }
{}

/// The same of a primary expression with what stands behind it.
pub fn postfixes_are_spelled()
    ensures { PostfixesAreSpelled }
{}
