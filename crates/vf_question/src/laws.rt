//! Laws of unfoldings. Each function does nothing; its contract is the law.

ghost use Rattle.vf_question.specs.Unfolded.{SettledIsEnough, NextIsRight, RightIsSound};
ghost use Rattle.vf_question.specs.Ends.{UnfoldingEnds};

/// Where right unfoldings were made until nothing more is asked for, the closure with unfolding has
/// a conflict exactly where that of the facts and the equations has one, no fixpoint being unfolded.
pub fn settled_is_enough()
    ensures { SettledIsEnough }
{}

/// Right unfoldings stay right with one that comes next.
pub fn next_is_right()
    ensures { NextIsRight }
{}

/// With each unfolding that comes next and was not made, fewer are missing of those that can be
/// asked for.
pub fn unfolding_ends()
    ensures { UnfoldingEnds }
{}

/// Whatever right unfoldings were made, a conflict of the closure of the facts and the equations, no
/// fixpoint being unfolded, is one of the closure with unfolding.
pub fn right_is_sound()
    ensures { RightIsSound }
{}
