//! Laws of the parsers on lists. Each function does nothing; its contract is the law.

ghost use Rattle.vf_grammar_depth.specs.expressions.Deep.{ExpressionsDeepen, PostfixesDeepen};

/// Where an expression nests too deep, one that may nest deeper is read past that token.
pub fn expressions_deepen()
    ensures { ExpressionsDeepen }
{}

/// The same of a primary expression with what stands behind it.
pub fn postfixes_deepen()
    ensures { PostfixesDeepen }
{}
