//! A law of the calls of fixpoints. The function does nothing; its contract is the law.

ghost use Rattle.vf_fixpoint.specs.Calls.{StraysAreCalls};

/// No call strays exactly where each call that stands anywhere in the expression passes a component.
pub fn strays_are_calls()
    ensures { StraysAreCalls }
{}
