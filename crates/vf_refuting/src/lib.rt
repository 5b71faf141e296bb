//! Refutations of ground questions over a table of terms.
//!
//! A question is decided as by classes and bounds alone, but each equality and each bound that they are given comes
//! with the step of a log that derives it, so that a conflict is derived in the log too.
//!
//! `refutation` answers the steps of a refutation of the facts, which the check of `vf_refute` accepts, and none
//! exactly where their closure has no conflict. Exact within small numbers.
#![tactic(auto)]

mod exchange;
mod gather;
mod run;
mod verdict;

pub use verdict::refutation;
