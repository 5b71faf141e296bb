//! The assertions that resolved trees mean.
//!
//! In `specs/`: which assertion of `vf_meaning` a resolved one means, and which contract and body; a leaf means what its
//! term means for the rules (`vf_entailment/specs/Meant.antt`). Laws: `truths_mean_their_terms` (a truth value whose
//! connectives and comparisons are told apart means what the term means that it is); examples: `meant_in_examples`
//! (contracts of `create_mutex`, `mutex_dispose` and `thread_join`, a cell, shares and a constructor's chunk).
#![tactic(auto)]

mod laws;

pub use laws::{meant_in_examples, truths_mean_their_terms};
