//! Laws of the parsers on lists. Each function does nothing; its contract is the law.

ghost use Rattle.vf_grammar_depth.specs.statements.Deep.{PlainBodiesDeepen, PlainStatementsDeepen, SimplesDeepen};

/// Where an assignment or a call nests too deep, one that may nest deeper is read past that token.
pub fn simples_deepen()
    ensures { SimplesDeepen }
{}

/// The same of a statement.
pub fn plain_statements_deepen()
    ensures { PlainStatementsDeepen }
{}

/// The same of the body of a function.
pub fn plain_bodies_deepen()
    ensures { PlainBodiesDeepen }
{}
