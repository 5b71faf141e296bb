//! What annotations declare is not seen by C text: contracts, invariants and ghost commands only add names of their own
//! behind the locals that are there, and ghost items leave the locals, and all that C text sees, as they are. The law is
//! the contract of a public function with an empty body.
//!
//! Laws: `annotations_are_unseen`: a contract, an invariant and a ghost command in the body of a function only add
//! names of annotations behind the locals that are there; behind a ghost item C text sees what it saw in front of it,
//! there are the same locals, and names still stand beside what they mean.

ghost use Rattle.vf_erasure_laws.specs.hidden.Hidden.{AnnotationsAreUnseen};

/// What annotations declare is not seen by C text.
#[tactic(auto, using(crate::proofs::hidden::Laws::annotations_are_unseen))]
pub fn annotations_are_unseen()
    ensures { AnnotationsAreUnseen }
{}
