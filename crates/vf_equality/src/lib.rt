//! That two terms are equal: the literal, the question and the fact.
//!
//! `equality` is the literal that `specs/Equality.antt` says, and it can be asked wherever both terms can be compared:
//! they are in normal form, with numbers within 2^100. `are_equal` and `all_equal` ask, and `learn_equal` hangs the fact
//! on a node, each by its course, whoever answers. Law: `comparisons_can_be_asked`.
#![tactic(auto)]

mod equal;
mod laws;

pub use equal::{all_equal, are_equal, equality, learn_equal};
pub use laws::comparisons_can_be_asked;
