//! Laws of refutations. Each function does nothing; its contract is the law.

ghost use Rattle.vf_closure.specs.Laws.{RefutationsAreSound};
ghost use Rattle.vf_closure.specs.Made.{UnfoldingsAreEnough};
ghost use Rattle.vf_closure.specs.Definitions.{RefutationsEntail};

/// Where there is a plain refutation of a question, every valuation that meets the facts meets the
/// goal.
pub fn refutations_are_sound()
    ensures { RefutationsAreSound }
{}

/// Where all unfoldings that the closure asks for were made, as equations, it has a conflict exactly
/// where the closure of the facts and the equations has one, no fixpoint being unfolded.
pub fn unfoldings_are_enough()
    ensures { UnfoldingsAreEnough }
{}

/// Where a question is refuted with the fixpoints of a unit, the facts entail the goal whatever else
/// is declared, as long as these fixpoints have their equations.
pub fn refutations_entail()
    ensures { RefutationsEntail }
{}
