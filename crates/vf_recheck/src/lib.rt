//! The check of a refutation over the literals of a question, with unfolding.
//!
//! A refutation is a list of steps over numbered terms: those of the question, and those of what its
//! steps unfold, which are numbered behind them. Steps that unfold nothing are those of `vf_refute`, over
//! the table of the terms so far. The check goes over the steps once, searches for nothing, and has no
//! limit on how deep fixpoints are unfolded.
//!
//! `recheck` says yes exactly where each step but the last derives something from earlier ones over the terms so far,
//! within numbers of 2^126, and the last names a conflict; the closure of the literals then has one; `Tables::follow`
//! numbers the terms of literals, and goes on from those that it has in common with the ones before; `Tables::pose`
//! is the question of these and one more, and `recheck_posed` checks steps for a question as `recheck` does; laws
//! `refutations_show_conflicts`, `conflicts_are_met_by_none`, `refutations_are_sound`, `definitions_entail`. It calls
//! nothing that searches for a refutation. Exact for the literals of `vf_question`, with whatever an `Unfolder` says;
//! past 2^20 terms there is no memory.
#![tactic(auto)]

mod checking;
mod ending;
mod facts;
mod heads;
mod laws;
mod numbering;
mod posing;
mod steps;
mod tables;
mod unfolding;

pub use checking::{recheck, recheck_posed};
pub use facts::facts_over;
pub use laws::{
    conflicts_are_met_by_none, definitions_entail, refutations_are_sound,
    refutations_show_conflicts,
};
pub use numbering::{number_all, number_term};
pub use posing::{Posed, question_of};
pub use steps::{Refutation, Step};
pub use tables::Tables;
