//! Laws of unfolding by definitions. Each function does nothing; its contract is the law.

ghost use Rattle.vf_definitions.specs.Laws.{DefinitionsKeepValues, DefinitionsEntail};

/// Where fixpoints have the values of their bodies, what applications are unfolded to has their values.
pub fn definitions_keep_values()
    ensures { DefinitionsKeepValues }
{}

/// Where a question is refuted with some fixpoints, the facts entail the goal whatever else is declared,
/// as long as these have the values of their bodies.
pub fn definitions_entail()
    ensures { DefinitionsEntail }
{}
