//! Laws of fixpoints in the order of their declaration. Each function does nothing; its contract is the law.

ghost use Rattle.vf_view_laws.specs.Laws.{DeclaredFixpointsAreOrdered, DefinitionsAreAmong, DefinitionsStandWhereLinked, UnitsAnswersEntail};

/// Fixpoints in the order of their declaration are, the last first, in the order that an environment asks for.
pub fn declared_fixpoints_are_ordered()
    ensures { DeclaredFixpointsAreOrdered }
{}

/// Their definitions stand among them.
pub fn definitions_are_among()
    ensures { DefinitionsAreAmong }
{}

/// So the definitions of a unit stand among the fixpoints of each linked environment of it.
pub fn definitions_stand_where_linked()
    ensures { DefinitionsStandWhereLinked }
{}

/// Right answers to the unit entail there.
pub fn units_answers_entail()
    ensures { UnitsAnswersEntail }
{}
