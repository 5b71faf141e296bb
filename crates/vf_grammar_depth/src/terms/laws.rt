//! Laws of the parsers on lists. Each function does nothing; its contract is the law.

ghost use Rattle.vf_grammar_depth.specs.terms.Deep.{SortsDeepen, TermsDeepen};

/// Where a sort nests too deep, one that may nest deeper is read past that token.
pub fn sorts_deepen()
    ensures { SortsDeepen }
{}

/// The same of an expression, where two more may nest.
pub fn terms_deepen()
    ensures { TermsDeepen }
{}
