//! Programs of several units that are accepted. Each function does nothing; its contract is the example.

ghost use Rattle.vf_examples.specs.TwoUnits.{TwoUnitsAreAccepted};

/// Two units that share a header are accepted and linked: a function and a lemma of the one are called in the other
/// by the contracts of their prototypes, which those of their definitions refine; the header's predicate has its body
/// in the one alone. Nothing is leaked in any run.
pub fn two_units_are_accepted()
    ensures { TwoUnitsAreAccepted }
{}
