//! Laws of the parsers on lists. Each function does nothing; its contract is the law.

ghost use Rattle.vf_parse_chunk.specs.Laws.{BegunAreSpelled, EndedAreSpelled};

/// What is read of a part is spelled by the tokens that are taken, and nests no deeper than is allowed.
pub fn chunks_are_spelled()
    ensures begun { BegunAreSpelled }
    ensures ended { EndedAreSpelled }
{}
