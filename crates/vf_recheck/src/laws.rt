//! Laws of refutations. Each function does nothing; its contract is the law.

ghost use Rattle.vf_recheck.specs.Laws.{RefutationsShowConflicts, ConflictsAreMetByNone, RefutationsAreSound, DefinitionsEntail};

/// A refutation of plain literals shows a conflict of their closure with unfolding.
pub fn refutations_show_conflicts()
    ensures { RefutationsShowConflicts }
{}

/// Where the closure of literals has a conflict, and unfolding keeps values, no valuation meets them all.
pub fn conflicts_are_met_by_none()
    ensures { ConflictsAreMetByNone }
{}

/// Where the closure of facts and a goal's negation has a conflict, and unfolding keeps values, every
/// valuation that meets the facts meets the goal.
pub fn refutations_are_sound()
    ensures { RefutationsAreSound }
{}

/// Where that closure has a conflict with some fixpoints, the facts entail the goal whatever else is
/// declared, as long as these have the values of their bodies.
pub fn definitions_entail()
    ensures { DefinitionsEntail }
{}
