//! The steps of a refutation, and their check.
//!
//! A refutation is a list of steps, each of which derives an equality or a bound from the question
//! and from earlier steps; the last names a conflict. The check goes over it once and searches for
//! nothing. A fact that is a difference is derived as one, and is taken as a bound either way by the
//! steps that take an equality of integer terms as bounds.
//!
//! `recheck` says yes exactly where each step but the last derives something from earlier ones, within numbers of
//! 2^126, and the last names a conflict; the closure of the facts then has one.
#![tactic(auto)]

mod checking;
mod rows;
mod steps;

pub use checking::recheck;
pub use rows::derive;
pub use steps::{Derived, Fact, Numbers, Step};
