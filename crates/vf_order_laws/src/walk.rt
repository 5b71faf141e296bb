//! The order in which a unit is looked at, as a walk of its tree that gives what it declares or the first refusal: items
//! and their parts in the order of the text, inside an expression the parts before the whole. The rules of names, types
//! and sorts, which are told one by one, give just what the walk gives. Each law is the contract of a public function
//! with an empty body.
//!
//! In `specs/`: the order of refusals, as a walk of the tree that gives what is declared or the first refusal: of
//! ghost expressions, patterns, shares and chunks, assertions, contracts, ghost commands, each form of ghost items,
//! statements and items of C, whole units, and the phases. Laws: `refusals_are_first` (a unit is refused exactly as
//! the walk first refuses it, and passes its phases exactly where the walk refuses nothing), `sorts_are_walked`,
//! `passes_are_walked`, `assertions_are_walked`, `annotations_are_walked`, `statements_are_walked`,
//! `units_are_walked`, `phases_are_walked` (the rules of each give what the walk gives, and nothing else); examples:
//! `first_in_examples`.

ghost use Rattle.vf_order_laws.specs.walk.Agreeing.{AssertionsAreWalked, FormsAreWalked, PassesAreWalked, PhasesAreWalked, RefusalsComeFirst, SortsAreWalked, StatementsAreWalked, UnitsAreWalked};
ghost use Rattle.vf_order_laws.specs.walk.Examples.{FirstInExpressions};

/// A ghost expression has the sort that the walk over it finds, or is refused as the walk first refuses it.
pub fn sorts_are_walked()
    ensures { SortsAreWalked }
{}

/// The same of a ghost expression of which a sort is wanted.
pub fn passes_are_walked()
    ensures { PassesAreWalked }
{}

/// An assertion declares what the walk over its parts finds, or is refused as the walk first refuses it.
pub fn assertions_are_walked()
    ensures { AssertionsAreWalked }
{}

/// So do a contract, an invariant, a ghost command in the body of a function, and a ghost item of each form.
pub fn annotations_are_walked()
    ensures { FormsAreWalked }
{}

/// So do the statements of the body of a function, with the annotations among them.
pub fn statements_are_walked()
    ensures { StatementsAreWalked }
{}

/// So do the items of a unit.
pub fn units_are_walked()
    ensures { UnitsAreWalked }
{}

/// And so do the phases of a unit: of its names, types and sorts, of its fixpoints, and of the order of operands.
pub fn phases_are_walked()
    ensures { PhasesAreWalked }
{}

/// The refusal of a unit is the first in this order, and a unit is accepted exactly where there is none.
pub fn refusals_are_first()
    ensures { RefusalsComeFirst }
{}

/// Of two operands that are refused the left one is found first, and what stands inside an expression before the whole.
pub fn first_in_examples()
    ensures { FirstInExpressions }
{}
