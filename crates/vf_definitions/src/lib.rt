//! The fixpoints of a unit as the prover has them: what each returns, as a term over its parameters.
//!
//! An application is unfolded by putting its arguments in place of the parameters and taking the normal
//! form. Contracts see [`Definitions`] as the list of its fixpoints.
//!
//! `Unfolder::body` and `case` answer the normal form of the fixpoint's term, or of the term of the constructor's
//! case, at the arguments, and nothing where their number is wrong, where the constructor has no case, where a
//! product of fractions in it is not kept or where a number in it is not within 2^100; laws
//! `definitions_keep_values`, `definitions_entail`.
#![tactic(auto)]

mod definitions;
mod filling;
mod fixpoint;
mod laws;
mod unfolding;

pub use definitions::Definitions;
pub use fixpoint::{Body, Case, CaseList, Fixpoint};
pub use laws::{definitions_entail, definitions_keep_values};
