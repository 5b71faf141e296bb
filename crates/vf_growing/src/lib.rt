//! Classes of equal terms that grow, and that are taken back.
//!
//! The terms of a table, and what is merged of them, come step by step, and after each step the
//! classes are closed under congruence and injectivity of constructors. What a step changes in them is
//! kept aside, so that steps can be taken back, the last first.
//!
//! `same` holds exactly where two terms are congruent by what was merged, and `why` derives it there and only there,
//! also after terms were added and steps taken back; `add` answers the number of the term that has a head and parts,
//! and adds it where there is none; `undo` leaves exactly the first steps, terms and merges in the order in which
//! they came, and takes no memory; `moved` tells which terms the last step moved: others are equal only where they
//! were before it.
#![tactic(auto)]

mod growing;
mod journal;

pub use growing::GrowingClasses;
pub use journal::{Moved, Step};
