//! Laws of the parsers on lists. Each function does nothing; its contract is the law.

ghost use Rattle.vf_grammar_depth.specs.assertions.Deep.{AssertionsDeepen};

/// Where an assertion nests too deep, one that may nest two deeper is read past that token.
pub fn assertions_deepen()
    ensures { AssertionsDeepen }
{}
