//! The bodies of fixpoints of an accepted unit, sorted once more behind the whole unit.
//!
//! A body is sorted where its fixpoint stands, and sorted once more when the unit is at its end. Of the names of file
//! level those alone count there that were declared up to the fixpoint: a later function of C may have the name of a
//! case, and a later name may be `is_T`. So it is accepted there too. Each law is the contract of a public function with
//! an empty body.
//!
//! In `specs/`: when what is declared in one scope is so in another, the names in bodies of fixpoints, and when files
//! see through each other. Laws: `accepted_units_are_defined` (of an accepted unit whose files see through each other
//! no body of a fixpoint is refused by `vf_defining`), `sorts_are_preserved` and `equations_are_preserved`
//! (expressions keep their sorts, and bodies stay accepted, where what is declared of the names in them is so),
//! `expanded_files_see_through` (the files of each unit that was expanded do see through each other); example:
//! `later_names_do_not_count` (an accepted unit whose fixpoint has its definition, though a later name `is_T` would
//! refuse its body).

ghost use Rattle.vf_fixpoint_laws.specs.definable.Example.{LaterNamesDoNotCount};
ghost use Rattle.vf_fixpoint_laws.specs.definable.Expanded.{ExpandedFilesSeeThrough};
ghost use Rattle.vf_fixpoint_laws.specs.definable.Laws.{AcceptedUnitsAreDefined, EquationsArePreserved, SortsArePreserved};

/// An expression has its sort also where all that is declared of the names in it is so.
pub fn sorts_are_preserved()
    ensures { SortsArePreserved }
{}

/// The body of a fixpoint that is accepted is accepted also where all that is declared of the names in it is so.
pub fn equations_are_preserved()
    ensures { EquationsArePreserved }
{}

/// No body of a fixpoint of an accepted unit is refused where it is defined.
pub fn accepted_units_are_defined()
    ensures { AcceptedUnitsAreDefined }
{}

/// The files of each unit that was expanded see through each other.
pub fn expanded_files_see_through()
    ensures { ExpandedFilesSeeThrough }
{}

/// A unit is accepted and its fixpoint has its definition, where all names of the unit together would refuse the body.
pub fn later_names_do_not_count()
    ensures { LaterNamesDoNotCount }
{}
