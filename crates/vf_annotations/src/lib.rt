//! The annotations of a unit: what each of them declares, and where it is refused.
//!
//! In `specs/`: what each form of annotation declares, by the definitions of the crates below. `Ghosts`, which walks
//! over the annotations of a unit for `vf_walk`: each contract, invariant, ghost command and item comes to what its
//! definition says.
#![tactic(auto)]

mod forms;
mod ghosts;

pub use ghosts::Ghosts;
