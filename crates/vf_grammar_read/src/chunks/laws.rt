//! Laws of the parsers on lists. Each function does nothing; its contract is the law.

ghost use Rattle.vf_grammar_read.specs.chunks.Laws.{WholesAreRead, TermsAreBegun, TermsAreEnded, CellsAreEnded};

/// What a part of an assertion begins with is read from the tokens that spell it: all of a chunk, of a cell with a
/// share and of `emp`, or an expression, behind which a cell goes on or nothing does.
pub fn chunks_are_read()
    ensures whole { WholesAreRead }
    ensures begun { TermsAreBegun }
    ensures ended { TermsAreEnded }
    ensures cells { CellsAreEnded }
{}
