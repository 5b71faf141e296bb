//! What an accepted unit declares is well declared, and its fixpoints stand among its items.
//!
//! Fixpoints keep sorts by their bodies where an identity is that of one declaration, no stray sorts stand in the
//! arguments of constructors, and each fixpoint that is declared is one of the items. All of it follows from the walk
//! over the unit that accepts it. Each law is the contract of a public function with an empty body.
//!
//! In `specs/`: when no `#` stands in the names of items; and two small units. Laws:
//! `accepted_units_are_well_declared` (what an accepted unit declares is well declared, as long as no `#` stands in
//! its names: an identity is that of one declaration, and no stray sorts stand in the arguments of constructors),
//! `accepted_fixpoints_are_written` (each fixpoint that it declares stands among its items), `declarations_go_on` and
//! `terms_go_on` (what is declared up to a name, and the terms that may be built by it, are so in the whole unit),
//! `predicates_are_declared_as_told` (what may be built as a predicate where the names up to one count may be built
//! as it by the whole unit, since a predicate is declared over the sorts that were told of it ahead), and so
//! `accepted_units_are_covered` (all that an accepted unit declares covers what is declared up to each of its
//! fixpoints), `accepted_sorts_have_values` (each sort over its datatypes has a value); examples: `boxes_stand` (a unit of which all of this is so), `marked_names_share_identities` (of one
//! with a `#` in a name it is not). That names are identifiers, and so have no `#`, is a premise, which units that
//! are read from texts meet (`vf_fixpoint_laws::identifiers`).

ghost use Rattle.vf_fixpoint_laws.specs.well_declared.Example.{BoxesStand};
ghost use Rattle.vf_fixpoint_laws.specs.well_declared.Laws.{AcceptedFixpointsAreWritten, AcceptedSortsHaveValues, AcceptedUnitsAreCovered, AcceptedUnitsAreWellDeclared, DeclarationsGoOn, PredicatesAreDeclaredAsTold, TermsGoOn};
ghost use Rattle.vf_fixpoint_laws.specs.well_declared.Marked.{MarkedNamesShareIdentities};

/// What an accepted unit declares is well declared, as long as no `#` stands in its names.
pub fn accepted_units_are_well_declared()
    ensures { AcceptedUnitsAreWellDeclared }
{}

/// Each fixpoint that an accepted unit declares stands among its items.
pub fn accepted_fixpoints_are_written()
    ensures { AcceptedFixpointsAreWritten }
{}

/// What is declared up to a name is declared by the whole unit.
pub fn declarations_go_on()
    ensures { DeclarationsGoOn }
{}

/// Terms that may be built where the names up to one count may be built by the whole unit.
pub fn terms_go_on()
    ensures { TermsGoOn }
{}

/// What may be built as a predicate where the names up to one count may be built as it by all that an accepted unit
/// declares.
pub fn predicates_are_declared_as_told()
    ensures { PredicatesAreDeclaredAsTold }
{}

/// A unit with boxes of any sort, a fixpoint over them and a predicate that stands behind a fixpoint is accepted, and
/// all of this is so of it.
pub fn boxes_stand()
    ensures { BoxesStand }
{}

/// A unit is accepted in which two predicates share an identity, since a `#` stands in the name of one of them.
pub fn marked_names_share_identities()
    ensures { MarkedNamesShareIdentities }
{}

/// So all that an accepted unit declares covers what is declared up to each of its fixpoints.
pub fn accepted_units_are_covered()
    ensures { AcceptedUnitsAreCovered }
{}

/// The datatypes of an accepted unit stand in order, so each sort over them has a value, every sort but a datatype being
/// taken to have one.
pub fn accepted_sorts_have_values()
    ensures { AcceptedSortsHaveValues }
{}
