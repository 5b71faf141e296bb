//! Laws of loops and of switches over values. Each function does nothing; its contract is the law.

ghost use Rattle.vf_rules.specs.Cases.{EmptyCasesHold};
ghost use Rattle.vf_rules.specs.LoopLaws.{EnteringKeeps};

/// A state that comes to a loop's head stands for what the invariant, produced there, stands for with the chunks that are kept.
pub fn entering_keeps()
    ensures { EnteringKeeps }
{}

/// A switch over a value whose cases ask for nothing holds of nothing.
pub fn empty_cases_hold()
    ensures { EmptyCasesHold }
{}
