//! Annotations are not seen by C text, and what is left of functions without them is the plain reading.
#![tactic(auto)]

pub mod erased;
pub mod hidden;
pub mod plain;
pub mod seen;
