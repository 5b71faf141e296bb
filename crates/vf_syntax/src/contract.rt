//! Contracts, claims and invariants.

use crate::assertion::Assertion;
use crate::written::Name;
use vf_base::Place;

/// `requires A; ensures B;`, and the place of its first word.
#[derive(Drop)]
pub struct Contract {
    pub place: Place,
    pub precondition: Assertion,
    pub postcondition: Assertion,
}

/// `: T`, the claim that a function is one of a function type, and the place of its `:`.
#[derive(Drop)]
pub struct Claim {
    pub place: Place,
    pub name: Name,
}

/// `invariant A;`, and the place of its first word.
#[derive(Drop)]
pub struct Invariant {
    pub place: Place,
    pub assertion: Assertion,
}
