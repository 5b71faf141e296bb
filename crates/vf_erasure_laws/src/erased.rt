//! What C text becomes in steps does not hang on the annotations in it: laws, each the contract of a public function with
//! an empty body.
//!
//! So what is left when annotations are erased is what the text without them becomes. Accepted means here: by the rules
//! of names, types and sorts.
//!
//! Laws: `plain_readings_are_erased`: where names, types and sorts accept a unit and it makes functions, whatever is
//! answered for its plain reading, which are its items without their annotations, is the same functions once
//! annotations are erased, unless memory ran out; names and types do not refuse the plain reading. Below it
//! `annotated_walks_are_seen` and `units_are_seen` (items without their annotations declare what C text sees),
//! `annotated_bodies_are_erased` (a body becomes the same steps) and `units_are_erased`. That the tokens of real text
//! are read as the items without their annotations is a law of `vf_erasure_laws::plain`.

ghost use Rattle.vf_erasure_laws.specs.erased.Erasure.{AnnotatedBodiesAreErased};
ghost use Rattle.vf_erasure_laws.specs.erased.Units.{PlainReadingsAreErased, UnitsAreErased};
ghost use Rattle.vf_erasure_laws.specs.erased.WalkedUnits.{UnitsAreSeen};
ghost use Rattle.vf_erasure_laws.specs.erased.Walks.{AnnotatedWalksAreSeen};

/// A body and the same without its annotations become the same steps once annotations are erased.
pub fn annotated_bodies_are_erased()
    ensures { AnnotatedBodiesAreErased }
{}

/// The walk over items without their annotations comes to what C text sees of what the items declare.
#[tactic(auto, using(crate::proofs::erased::WalkingItems::annotated_walks_are_seen))]
pub fn annotated_walks_are_seen()
    ensures { AnnotatedWalksAreSeen }
{}

/// Where the items of a unit declare something, those that are left of them without annotations declare what C text sees
/// of it.
#[tactic(auto, using(crate::proofs::erased::WalkingUnits::units_are_seen))]
pub fn units_are_seen()
    ensures { UnitsAreSeen }
{}

/// Where items are accepted and make functions, the same items without their annotations are accepted, and make functions
/// that are the same once annotations are erased.
pub fn units_are_erased()
    ensures { UnitsAreErased }
{}

/// Where a unit is accepted and makes functions, whatever is answered for its plain reading is the same functions once
/// annotations are erased, unless memory ran out; the plain reading is not refused.
pub fn plain_readings_are_erased()
    ensures { PlainReadingsAreErased }
{}
