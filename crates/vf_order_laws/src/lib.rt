//! The order of refusals: as a walk of the tree to which all rules come, and that they give one answer at most.
#![tactic(auto)]

pub mod determined;
pub mod walk;
