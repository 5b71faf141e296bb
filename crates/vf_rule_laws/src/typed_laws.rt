//! The rules keep the sorts and ranges of states. Each function does nothing; its contract is the law.

ghost use Rattle.vf_rule_laws.specs.Derivations.{AcceptedBodiesAreTyped};
ghost use Rattle.vf_rule_laws.specs.TypedLaws.{TypedExpressionsEvaluate, QuotientsAreInRange, SortedTermsHaveSorts, StepsKeepTypes, StepsMeetTypes, CallsKeepTypes, GhostStepsKeepTypes, GhostOutcomesAreTyped, BodiesBeginTyped, PreconditionsAreTyped, LoopHeadsAreTyped};

/// An expression has a value of its type where the locals have, and nothing but ranges and divisors is to be asked.
pub fn typed_expressions_evaluate()
    ensures { TypedExpressionsEvaluate }
{}

/// A quotient and a remainder are in the range of the type of both numbers.
pub fn quotients_are_in_range()
    ensures { QuotientsAreInRange }
{}

/// A term whose symbols have their sorts has its sort.
pub fn sorted_terms_have_sorts()
    ensures { SortedTermsHaveSorts }
{}

/// The rule of each core step leads from a typed state to typed states.
pub fn steps_keep_types()
    ensures { StepsKeepTypes }
{}

/// In a typed state all that the rule of a step asks of types is so.
pub fn steps_meet_types()
    ensures { StepsMeetTypes }
{}

/// A call, of a function or through a pointer, comes from a typed state to typed states.
pub fn calls_keep_types()
    ensures { CallsKeepTypes }
{}

/// Rules of annotations lead from a typed state to a typed one.
pub fn ghost_steps_keep_types()
    ensures { GhostStepsKeepTypes }
{}

/// Or to several, as where a predicate is opened or closed, among which enough are typed.
pub fn ghost_outcomes_are_typed()
    ensures { GhostOutcomesAreTyped }
{}

/// A body begins in a typed state, and so does the check of a claim.
pub fn bodies_begin_typed()
    ensures { BodiesBeginTyped }
{}

/// So a precondition is produced in typed states.
pub fn preconditions_are_typed()
    ensures { PreconditionsAreTyped }
{}

/// Where a typed state comes to a loop's head, the state there is typed.
pub fn loop_heads_are_typed()
    ensures { LoopHeadsAreTyped }
{}

/// An accepted body has a derivation whose every state is typed.
pub fn accepted_bodies_are_typed()
    ensures { AcceptedBodiesAreTyped }
{}
