//! Whole units in steps: with their annotations, as they are checked, and in their plain reading, which is what a C
//! compiler sees and what runs.
//!
//! What is left of the first without annotations is the second: `plain_of` says so of every unit that names, types and
//! sorts accept.
//!
//! `lower_unit`: what a unit declares and the functions that its items make, or its first refusal, by the annotations
//! of `vf_annotations`. `plain_of`: the functions of items without annotations, or their first refusal; where they
//! are those of a unit that is accepted, no refusal comes, and they are what is left of the unit's functions. Law:
//! `orders_are_plain` (the order of operands is refused at the same place in both readings, or in none).
#![tactic(auto)]

mod laws;
mod units;

pub use laws::orders_are_plain;
pub use units::{LoweredUnit, lower_unit, plain_of};
