//! The annotations in the body of a function, resolved.
//!
//! [`statements_told`] goes over statements in the order of the text, where something is declared and numbered. Each
//! local of C that is declared is one more name; each ghost command, and the invariant of each loop, is sorted and then
//! resolved where it stands, as `vf_resolved_texts` does it. What a branch or the body of a loop declares is gone behind
//! it, and its numbers are not used again; the names of an invariant stay behind the loop.
//!
//! The annotations come in the order of the text, one for each ghost command that is a statement, and one for each loop,
//! with an invariant or without: so one for each node of the lowered body that is such a command or the head of a loop,
//! in their order.
//!
//! In `specs/`: what statements tell and declare, as a walk of the shape of that of `vf_walk`. `statements_told`: what is
//! told and declared is one of what the walk may come to, and a refusal is one of sorting that it may come to; want of
//! memory alone is free. C text is not typed once more, and refuses nothing here.
#![tactic(auto)]

mod annotation;
mod bodies;
mod invariants;
mod statements;
mod telling;

pub use annotation::Annotation;
pub use bodies::{Annotated, BodyTold, body_told};
pub use invariants::invariant_told;
pub use statements::statements_told;
pub use telling::Telling;
