//! Classes of equal terms, closed under congruence and injectivity of constructors.
//!
//! A list gives each term the number of its class. Joining two classes renames one to the number of
//! the other, the smaller of the two, so that the sum of the numbers falls. What that leaves to join is
//! looked for at the terms that moved and those that have a part that did, until nothing is left.
//!
//! `same` holds exactly where two terms are congruent by what was merged; there, and only there, `why` derives it in
//! a log from the steps that derive what was merged.
#![tactic(auto)]

mod classes;
mod explaining;
mod joining;

pub use classes::{Classes, derive_equality};
pub use joining::{join_and_settle, settle};
