//! Fixpoints of accepted units have values of their sorts, and an interpretation gives them the values of their bodies.
#![tactic(auto)]

pub mod accepted;
pub mod bodies;
pub mod definable;
pub mod descending;
pub mod identifiers;
pub mod met;
pub mod values;
pub mod well_declared;
