//! Refutations of questions, step by step.
//!
//! A question whose closure has a conflict is refuted by steps that a check follows without a search. First
//! come the steps that derive what was unfolded for it, in the order in which it was unfolded, and then
//! those of a refutation of the facts and of these equations, no fixpoint being unfolded.
//!
//! `refutation` answers, for literals and unfoldings that were made in turn until there was a conflict, steps that
//! the check of `vf_recheck` accepts; `refutation_along` does so for a goal that the facts of a path entail, leaves
//! the path where it was, and answers only what has passed the check. Exact for the literals of `vf_question`, with
//! whatever an `Unfolder` says.
#![tactic(auto)]

mod adding;
mod along;
mod basis;
mod draft;
mod equalities;
mod following;
mod questions;
mod refuting;
mod shifting;
mod ways;

pub use along::refutation_along;
pub use refuting::refutation;
