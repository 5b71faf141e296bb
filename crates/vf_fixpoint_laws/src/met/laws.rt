//! Laws of the values of fixpoints. Each function does nothing; its contract is the law.

ghost use Rattle.vf_fixpoint_laws.specs.met.Endless.{EndlessIsNotMet};
ghost use Rattle.vf_fixpoint_laws.specs.met.Laws.{DefinitionsAreMet};
ghost use Rattle.vf_fixpoint_laws.specs.met.Units.{AcceptedDefinitionsAgree, AcceptedUnitsAreMet, AcceptedUnitsAreMetInSorts, ReadUnitsAreMet};

/// Definitions whose applications go down in some order, and which agree where they are of one identity, have an
/// interpretation with any claims that gives them the values of their bodies.
pub fn definitions_are_met()
    ensures { DefinitionsAreMet }
{}

/// The order is needed: a fixpoint that gives one more than itself agrees with itself, and no interpretation gives it the
/// value of its body.
pub fn endless_is_not_met()
    ensures { EndlessIsNotMet }
{}

/// The definitions of a unit that is accepted, in whose names no `#` stands, agree where they are of one identity: they are
/// of one item, and where there are two the second is the first taken as a number.
pub fn accepted_definitions_agree()
    ensures { AcceptedDefinitionsAgree }
{}

/// So an interpretation with any claims gives the definitions of such a unit the values of their bodies.
pub fn accepted_units_are_met()
    ensures { AcceptedUnitsAreMet }
{}

/// And one does so in which the fixpoints that the unit declares keep sorts.
pub fn accepted_units_are_met_in_sorts()
    ensures { AcceptedUnitsAreMetInSorts }
{}

/// The same of a unit that is read from a file and accepted, whatever its names.
pub fn read_units_are_met()
    ensures { ReadUnitsAreMet }
{}
