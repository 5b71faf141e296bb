//! Bodies of fixpoints: the values that their equations give, each of which has the sort of the result.
//!
//! In `specs/`: what is declared behind a whole fixpoint, or its first refusal in the order of the text: the value
//! that it gives, or over what it switches, for which constructors its cases are, which names these bind, and their
//! values, each of the sort of the result. `declare_fixpoint_body`: what is declared is what the definition relates
//! to what was declared before, and a refusal is one that it gives. Which constructors have a case, and what calls of
//! itself pass, is the check of `vf_fixpoint`.
#![tactic(auto)]

mod cases;
mod fixpoints;
mod switching;
mod values;

pub use fixpoints::declare_fixpoint_body;
