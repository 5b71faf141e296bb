//! Contracts, invariants and bodies of predicates.

use crate::assertion::Assertion;
use vf_base::Place;
use vf_sorts::SortList;

/// The names of a text: their sorts in the order of their numbers, and how many of them are the parameters, which come
/// first.
#[derive(Drop)]
pub struct Names {
    pub sorts: SortList,
    pub parameters: usize,
}

/// `requires A; ensures B;`, and the place of its first word. The names of the precondition stand in front of those of
/// the postcondition.
#[derive(Drop)]
pub struct Contract {
    pub place: Place,
    pub names: Names,
    pub precondition: Assertion,
    pub postcondition: Assertion,
}

/// The body of a predicate, of a family for a function, or of a predicate constructor, whose first arguments stand in
/// front of the others among the parameters.
#[derive(Drop)]
pub struct Body {
    pub names: Names,
    pub assertion: Assertion,
}
