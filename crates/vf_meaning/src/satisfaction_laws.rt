//! Laws of satisfaction. Each function does nothing; its contract is the law.

ghost use Rattle.vf_meaning.specs.SatisfactionLaws.{DepthGrows, DepthFalls, ScalesSplit, HalvesSplit, SatisfyingIsConsistent, NamesAgree, DeclarationsGrow, CellsJoin, ChunksJoin, RowsJoin};

/// What is satisfied at a depth is at each greater depth.
pub fn depth_grows()
    ensures { DepthGrows }
{}

/// A predicate at a depth is its body by predicates at a depth less by one, and nothing at depth 0.
pub fn depth_falls()
    ensures { DepthFalls }
{}

/// What satisfies an assertion at the sum of two scales is the sum of two parts that satisfy it at each.
pub fn scales_split()
    ensures { ScalesSplit }
{}

/// What satisfies an assertion is the sum of two parts that satisfy it at half the scale.
pub fn halves_split()
    ensures { HalvesSplit }
{}

/// A part that satisfies an assertion has one content at each location.
pub fn satisfying_is_consistent()
    ensures { SatisfyingIsConsistent }
{}

/// Valuations that agree on the names in an assertion satisfy it alike.
pub fn names_agree()
    ensures { NamesAgree }
{}

/// More declarations take nothing away.
pub fn declarations_grow()
    ensures { DeclarationsGrow }
{}

/// Two shares of one cell are one share of it at the sum of their scales.
pub fn cells_join()
    ensures { CellsJoin }
{}

/// Two shares of one block, mutex, held mutex or handle are one share of it at the sum of their scales.
pub fn chunks_join()
    ensures { ChunksJoin }
{}

/// Two shares of one row of int cells are one share of it at the sum of their scales.
pub fn rows_join()
    ensures { RowsJoin }
{}
