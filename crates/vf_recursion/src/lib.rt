//! Whether the fixpoints of a unit have values.
//!
//! Each fixpoint is checked by the constructors of the datatype by which it goes. That is the datatype which the unit
//! declares by the name that the sort of the parameter is written with: in a unit whose names and sorts are right no two
//! declarations have one name, and a parameter over which a fixpoint switches has a datatype's sort.
//!
//! `check_fixpoints` refuses a unit exactly where the first fixpoint in the order of the text is refused by the check
//! of `vf_fixpoint`.
#![tactic(auto)]

mod constructors;
mod fixpoints;

pub use fixpoints::check_fixpoints;
