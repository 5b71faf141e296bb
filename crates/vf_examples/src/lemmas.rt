//! Lemmas that are accepted. Each function does nothing; its contract is the example.

ghost use Rattle.vf_examples.specs.ArrayCalls.{SplittingIsAccepted};
ghost use Rattle.vf_examples.specs.Halving.{HalvingIsAccepted};
ghost use Rattle.vf_examples.specs.Nesting.{NestingIsAccepted};
ghost use Rattle.vf_examples.specs.SmallLemmas.{LemmasAreAccepted, ListsHaveValues};

/// A lemma that opens a predicate and closes it again, and one that calls itself with the rest of a `list<int>`, whose
/// first element it passes for an int, are accepted.
pub fn lemmas_are_accepted()
    ensures { LemmasAreAccepted }
{}

/// The datatype `list<t>` has a value at every sort that has one.
pub fn lists_have_values()
    ensures { ListsHaveValues }
{}

/// A lemma is accepted that calls itself with what is inside of its precondition's first part, a predicate without memory.
pub fn nesting_is_accepted()
    ensures { NestingIsAccepted }
{}

/// A lemma is accepted whose body calls `ints_split`; that its row's length is not negative is known as soon as the row
/// is produced.
pub fn splitting_is_accepted()
    ensures { SplittingIsAccepted }
{}

/// A lemma is accepted that opens its precondition's first part in two halves, one later than the other, and calls
/// itself with what is inside of each.
pub fn halving_is_accepted()
    ensures { HalvingIsAccepted }
{}
