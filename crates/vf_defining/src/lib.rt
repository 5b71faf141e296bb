//! Fixpoints of a unit as definitions of the prover.
//!
//! The body of a fixpoint is sorted once more, where its parameters are locals and its name is the last of file level,
//! and then read as terms over these.
//!
//! `definitions` are what the definition says, one for each kind of applications that the sort of the result allows,
//! in the order of the text; where that sort is a type parameter, the one for integers has the body taken as a
//! number; it is refused only where the body of a fixpoint is refused with these names, as none is in a unit that is
//! accepted and whose files see through each other (`vf_fixpoint_laws::definable`).
#![tactic(auto)]

mod bodies;
mod cases;
mod fixpoints;
mod integers;
mod switching;
mod symbols;
mod units;
mod up_to;
mod values;

pub use units::definitions;
