//! Functions in steps: in `specs/` what a function with its body becomes, which functions the items of a unit make, and
//! what is left of a function without its annotations.
//!
//! In `specs/`: what a function with its body becomes in steps, its parameters among its locals, and which functions
//! the items of a unit make, each where its own item is declared; what is left of a function without its annotations:
//! ghost commands, declarations without a value and the heads and ends of loops are left out, and each skip is over
//! those nodes that are kept. Law `as_many_are_left`.
#![tactic(auto)]

ghost use Rattle.vf_functions.specs.Laws.{AsManyAreLeft};

/// As many nodes are left of a body without its annotations as are kept.
pub fn as_many_are_left()
    ensures { AsManyAreLeft }
{}
