//! Laws of the parsers on lists. Each function does nothing; its contract is the law.

ghost use Rattle.vf_grammar_depth.specs.chunks.Deep.{CellsDeepen, ChunksDeepen};

/// Where that with which a part begins nests too deep, one that may nest two deeper is read past that token.
pub fn chunks_deepen()
    ensures { ChunksDeepen }
{}

/// The same of what a cell has behind its pointer.
pub fn cells_deepen()
    ensures { CellsDeepen }
{}
