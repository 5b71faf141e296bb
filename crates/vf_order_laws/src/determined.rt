//! The rules of names, of types and sorts, and of the phases behind them give one answer at most, so that what is
//! answered by them, and what is refused, is the only answer there is. Each law is the contract of a public function with
//! an empty body.
//!
//! Laws: `sorts_are_determined`, `assertions_are_determined`, `annotations_are_determined`, `units_are_determined`,
//! `phases_are_determined`: what the rules of sorts, of assertions, of each annotation, of whole units and of the
//! phases give is one answer at most; so what the calls of these crates answer, unless memory runs out, is the only
//! answer there is.

ghost use Rattle.vf_order_laws.specs.determined.Determined.{AnnotationsAreDetermined, AssertionsAreDetermined, PhasesAreDetermined, SortsAreDetermined, UnitsAreDetermined};

/// A ghost expression has one sort at most, with one that is known then of unknown sorts, or it is refused in one way.
#[tactic(auto, using(crate::proofs::determined::Laws::sorts_are_determined))]
pub fn sorts_are_determined()
    ensures { SortsAreDetermined }
{}

/// An assertion declares one thing at most, or it is refused in one way.
#[tactic(auto, using(crate::proofs::determined::Laws::assertions_are_determined))]
pub fn assertions_are_determined()
    ensures { AssertionsAreDetermined }
{}

/// A contract, an invariant, a ghost command in the body of a function, and a ghost item each come to one thing at most.
#[tactic(auto, using(crate::proofs::determined::Laws::annotations_are_determined))]
pub fn annotations_are_determined()
    ensures { AnnotationsAreDetermined }
{}

/// A unit declares one thing at most, or it is refused in one way.
pub fn units_are_determined()
    ensures { UnitsAreDetermined }
{}

/// A unit passes the phases of names, of fixpoints and of order with one that it declares, or it is refused in one way.
#[tactic(auto, using(crate::proofs::determined::Laws::phases_are_determined))]
pub fn phases_are_determined()
    ensures { PhasesAreDetermined }
{}
