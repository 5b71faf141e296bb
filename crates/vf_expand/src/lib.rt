//! Unit text over all files: the walk over a file and the headers that it includes.
//!
//! The text of a unit is recursive over files. The walk keeps a stack of the files that wait for the
//! end of a header, of which there are at most 32.
//!
//! `expand` gives a unit's tokens, headers, which files each file includes, and its end, or the rule and place of the
//! first refusal, exactly as the definition of a unit's text says, whatever stands in files that were not asked for
//! (`exact`); `missing` and `read_fault` say what the other answers mean, and `reads` what the snapshot holds
//! afterwards. Law: `snapshots_are_told` (for whatever is held there is a library that tells it, so that `exact`
//! always speaks of one).
#![tactic(auto)]

mod frames;
mod includes;
mod laws;
mod sources;
mod state;
mod steps;
mod whole;

pub use laws::snapshots_are_told;
pub use whole::{UnitTokens, expand};
