//! Tables of terms read as terms.
//!
//! The closure of a question is defined over terms, and decided over a table in which each term
//! stands once, as a number. What a table is read as stands in `specs/`, and the laws here are that
//! the two closures agree on conflicts and on equal terms.
//!
//! In `specs/`: what a table is read as. Laws: `closures_agree`: the closure of a table has a conflict exactly where
//! that of its terms has one; `equal_terms_agree`: two terms are equal in the one exactly where they are in the
//! other.
#![tactic(auto)]

mod laws;

pub use laws::{closures_agree, equal_terms_agree};
