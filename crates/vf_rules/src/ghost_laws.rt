//! Laws of annotations that need no rule of their own. Each function does nothing; its contract is the law.

ghost use Rattle.vf_rules.specs.GhostLaws.{AssertingIsAccepted, ChoosingIsAccepted};

/// `assert`: an assertion is consumed, and then the chunks are as before; what it told of the state stays.
pub fn asserting_is_accepted()
    ensures { AssertingIsAccepted }
{}

/// A ghost `if`: both branches are accepted, each with what it assumes.
pub fn choosing_is_accepted()
    ensures { ChoosingIsAccepted }
{}
