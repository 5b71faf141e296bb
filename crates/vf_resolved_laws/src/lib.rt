//! What is resolved has the sorts that sorting gave. Each law is the contract of a public function with an empty body.
//!
//! In `specs/`: which sorts terms have, by what is declared at file level and the sorts of names: each head takes parts of
//! some sorts and gives a whole of one, at sorts that stand for the type parameters of what is declared, and sorts are one
//! where they differ in what pointers tell alone; and which sorts patterns, shares, chunks, cells and the parts of
//! assertions take.
//!
//! Laws: `expressions_keep_sorts` (where the terms that stand in a setting have their sorts, the term that `read` gives
//! for an expression that has a sort, or passes for one, has that sort as it is known in the end, and the unknown sorts
//! behind it are numbered as where it is sorted), `patterns_keep_sorts` (so has each pattern, each value and each share
//! of a part, and the names that the part binds are those that were bound), `truths_are_read` (a truth value whose
//! connectives and comparisons are told apart is the term that its expression is read as, where operators stand on their
//! levels), `cells_keep_sorts`, `chunks_keep_sorts`, `assertions_keep_sorts` (each part of an assertion is resolved as one
//! that has the sorts that it takes, and behind it names are declared as sorting has them, where it is known in front of
//! each chunk's arguments what a local takes that stands before them), and the examples `choice_has_its_sort` and
//! `chunk_has_its_sorts`.
#![tactic(auto)]

ghost use Rattle.vf_resolved_laws.specs.Chunk.{ChunkHasItsSorts};
ghost use Rattle.vf_resolved_laws.specs.Example.{ChoiceHasItsSort};
ghost use Rattle.vf_resolved_laws.specs.Laws.{AssertionsKeepSorts, CellsKeepSorts, ChunksKeepSorts, ExpressionsKeepSorts, PatternsKeepSorts, TruthsAreRead};

/// An expression is read as a term of the sort that sorting gave it.
pub fn expressions_keep_sorts()
    ensures { ExpressionsKeepSorts }
{}

/// A pattern is resolved as one for values of the sort that sorting gave it, and a share as a fraction.
pub fn patterns_keep_sorts()
    ensures { PatternsKeepSorts }
{}

/// A truth value whose connectives and comparisons are told apart is the term that its expression is read as.
pub fn truths_are_read()
    ensures { TruthsAreRead }
{}

/// A cell is resolved as one of a field with a type, at a pointer, with a content of that type's sort.
pub fn cells_keep_sorts()
    ensures { CellsKeepSorts }
{}

/// A chunk is resolved as one of something that takes arguments of the sorts that sorting gave them.
pub fn chunks_keep_sorts()
    ensures { ChunksKeepSorts }
{}

/// Each part of an assertion is resolved as one that has the sorts that it takes, where names are declared as sorting
/// has them.
pub fn assertions_keep_sorts()
    ensures { AssertionsKeepSorts }
{}

/// A worked example: a choice between numbers, whose test compares a pointer with the null pointer.
pub fn choice_has_its_sort()
    ensures { ChoiceHasItsSort }
{}

/// A worked example: a chunk that binds a name, and a truth value of that name.
pub fn chunk_has_its_sorts()
    ensures { ChunkHasItsSorts }
{}
