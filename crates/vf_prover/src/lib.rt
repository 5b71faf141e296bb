//! The prover over terms: it answers questions, and keeps each with its answer in the journal that it owns.
//!
//! The contract promises right answers in the sense of `vf_asking`: Proved exactly where there is a plain
//! refutation, the fixpoints of the unit that asks being unfolded, and then the facts entail the goal. The
//! prover works along a path: from where it was asked last it goes back to where the ways part, and on. Of each
//! question that it answers Proved it makes a refutation, which has passed the check of `vf_recheck`, and it hands
//! the last one over to who asks for it.
//!
//! It answers Unknown exactly where there is no plain refutation, and refuses exactly past 1,024 terms. On its path
//! it goes back no further than to the first node whose facts have too many terms. That the check refuses a
//! refutation is proved never to come. By the trait `Explain`, `last` hands it over, and nothing exactly where the
//! last question was not answered Proved, or nothing was asked since one was asked for.
#![tactic(auto)]

mod along;
mod deciding;
mod explain;
mod line;
mod prover;

pub use explain::Explain;
pub use prover::Prover;
