//! A header means the same in every unit: to C text, whatever annotations stand in the units, and to annotations.
//!
//! Each law is the contract of a public function with an empty body.
//!
//! Laws: `expanded_units_show_the_same`: where two units are expanded from files that are told apart, a header of
//! both consists of the same files in both, and the premises of the next hold, so does what it says.
//! `annotated_units_show_the_same`: where two units with annotations are accepted, and the same items stand in a
//! header of both but for their annotations, the header shows the same in what C text sees of both;
//! `stripped_items_are_the_same`: that is so where the same items stand in it with their annotations.
//! `expanded_units_show_the_same_ghosts`, `annotated_units_show_the_same_ghosts` and
//! `annotated_units_foresee_the_same`: the same of names of annotations, and of predicates that stand later, by the
//! laws of `vf_header_laws::ghost_names`. `expanded_units_foresee_the_same_sorts` and
//! `annotated_units_foresee_the_same_sorts`: where both units are accepted, predicates that stand later are over the
//! same sorts; for in a unit that is accepted each is declared over the sorts that are told of it
//! (`accepted_units_declare_as_told`, over `vf_fixpoint_laws::well_declared`).
#![tactic(auto)]

ghost use Rattle.vf_annotated_headers.specs.AnnotatedGhosts.{AcceptedUnitsDeclareAsTold, AnnotatedUnitsForeseeTheSame, AnnotatedUnitsForeseeTheSameSorts, AnnotatedUnitsShowTheSameGhosts};
ghost use Rattle.vf_annotated_headers.specs.AnnotatedUnits.{AnnotatedUnitsShowTheSame, StrippedItemsAreTheSame};
ghost use Rattle.vf_annotated_headers.specs.ExpandedGhosts.{ExpandedUnitsForeseeTheSameSorts, ExpandedUnitsShowTheSameGhosts};
ghost use Rattle.vf_annotated_headers.specs.ExpandedUnits.{ExpandedUnitsShowTheSame};

/// Where the same items stand in a header, the same of them are left without annotations.
pub fn stripped_items_are_the_same()
    ensures { StrippedItemsAreTheSame }
{}

/// A header in which the same C text stands shows the same in two units that are accepted.
pub fn annotated_units_show_the_same()
    ensures { AnnotatedUnitsShowTheSame }
{}

/// A header in which the same C text stands shows the same in two units that are expanded and accepted.
pub fn expanded_units_show_the_same()
    ensures { ExpandedUnitsShowTheSame }
{}

/// A header in which the same items of annotations stand shows the same names of annotations in two units that are
/// accepted.
#[tactic(auto, using(crate::proofs::AnnotatedGhosts::annotated_units_show_the_same_ghosts))]
pub fn annotated_units_show_the_same_ghosts()
    ensures { AnnotatedUnitsShowTheSameGhosts }
{}

/// A header in which the same items of annotations stand shows the same names of annotations in two units that are
/// expanded and accepted.
#[tactic(auto, using(crate::proofs::ExpandedGhosts::expanded_units_show_the_same_ghosts))]
pub fn expanded_units_show_the_same_ghosts()
    ensures { ExpandedUnitsShowTheSameGhosts }
{}

/// A header in which the same items of annotations stand foresees the same predicates in front of the items of two units.
#[tactic(auto, using(crate::proofs::AnnotatedGhosts::annotated_units_foresee_the_same))]
pub fn annotated_units_foresee_the_same()
    ensures { AnnotatedUnitsForeseeTheSame }
{}

/// In a unit that is accepted each predicate is declared over the sorts that are told of it in front of the items.
#[tactic(auto, using(crate::proofs::AnnotatedGhosts::accepted_units_declare_as_told))]
pub fn accepted_units_declare_as_told()
    ensures { AcceptedUnitsDeclareAsTold }
{}

/// A header in which the same items of annotations stand foresees predicates over the same sorts in front of the items of
/// two units that are accepted.
#[tactic(auto, using(crate::proofs::AnnotatedGhosts::annotated_units_foresee_the_same_sorts))]
pub fn annotated_units_foresee_the_same_sorts()
    ensures { AnnotatedUnitsForeseeTheSameSorts }
{}

/// A header in which the same items of annotations stand foresees predicates over the same sorts in front of the items of
/// two units that are expanded and accepted.
#[tactic(auto, using(crate::proofs::ExpandedGhosts::expanded_units_foresee_the_same_sorts))]
pub fn expanded_units_foresee_the_same_sorts()
    ensures { ExpandedUnitsForeseeTheSameSorts }
{}
