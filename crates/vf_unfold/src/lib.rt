//! Who says what applications of fixpoints are unfolded to.
//!
//! The prover unfolds by an [`Unfolder`]: the definitions of a unit, or equations that are listed.
//!
//! `Listed` unfolds by the first equation for an application, or for its fixpoint at a constructor's term.
#![tactic(auto)]

mod listed;
mod unfolder;

pub use listed::Listed;
pub use unfolder::Unfolder;
