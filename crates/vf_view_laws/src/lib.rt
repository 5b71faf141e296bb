//! Fixpoints in the order of their declaration: what right answers need of a unit's fixpoints.
//!
//! The definitions stand in `specs/`; the code here is public functions with an empty body, each of
//! which has a law as its contract.
//!
//! In `specs/`: the fixpoints of a unit in the order in which they are declared, with bodies as terms whose applications
//! go back, and the fixpoints of an environment that they are. Laws: `declared_fixpoints_are_ordered` (these are in the
//! order that an environment asks for, in the view of integers as whole numbers), `definitions_are_among` (their
//! definitions stand among them), so `definitions_stand_where_linked` and `units_answers_entail` (in each linked
//! environment of the unit right answers entail, with no premise about the environment's fixpoints but that the unit's
//! are these); example: `lists_stand_in_order`.
#![tactic(auto)]

mod examples;
mod laws;

pub use examples::lists_stand_in_order;
pub use laws::{
    declared_fixpoints_are_ordered, definitions_are_among, definitions_stand_where_linked,
    units_answers_entail,
};
