//! Laws of the fixpoints of accepted units. Each function does nothing; its contract is the law.

ghost use Rattle.vf_unit_laws.specs.Laws.{AcceptedDefinitionsAreTheirs, AcceptedFixpointsStandInOrder, AcceptedUnitsAnswersEntail, ReadUnitsAnswersEntail, ReadUnitsAreAccepted, UnitsDefinitionsAreAmong};

/// The fixpoints of an accepted unit, in whose names no `#` stands, stand in the order of their declaration, whichever
/// sorts they have: each has an identity of its own, and each application in its body is of an earlier one, or of itself
/// at a name of the case.
pub fn accepted_fixpoints_stand_in_order()
    ensures { AcceptedFixpointsStandInOrder }
{}

/// The definitions of such a unit are those of its fixpoints, also where one has a definition for each kind.
pub fn accepted_definitions_are_theirs()
    ensures { AcceptedDefinitionsAreTheirs }
{}

/// So they stand among the fixpoints of its environment, which are in order.
pub fn units_definitions_are_among()
    ensures { UnitsDefinitionsAreAmong }
{}

/// Right answers to such a unit entail wherever it is linked.
pub fn accepted_units_answers_entail()
    ensures { AcceptedUnitsAnswersEntail }
{}

/// A unit that is read from a file and passes its phases is accepted, whatever its names.
pub fn read_units_are_accepted()
    ensures { ReadUnitsAreAccepted }
{}

/// So right answers to it entail wherever it is linked.
pub fn read_units_answers_entail()
    ensures { ReadUnitsAnswersEntail }
{}
