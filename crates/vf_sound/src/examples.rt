//! Examples: the premises of safety can be met, and its claims can fail. Each function does nothing;
//! its contract is the law.

ghost use Rattle.vf_sound.specs.Examples.{BrokenPromiseIsSeen, OverflowIsSeen, SevenIsAccepted};

/// The rules accept a main that returns `3 + 4` and promises 7, by right answers.
pub fn seven_is_accepted()
    ensures { SevenIsAccepted }
{}

/// A main that returns `2147483647 + 1` is not safe (C11 6.5p5).
pub fn overflow_is_seen()
    ensures { OverflowIsSeen }
{}

/// A main that returns `3 + 4` and promises 8 does not keep what it owes.
pub fn broken_promise_is_seen()
    ensures { BrokenPromiseIsSeen }
{}
