//! Assertions, resolved.
//!
//! [`assertion_resolved`] goes over an assertion at a place where something is declared and numbered, and gives its
//! resolved tree. What its patterns bind is declared behind each part, and gone behind a branch; the numbers of names
//! are not used again.
//!
//! In `specs/`: the resolved tree as a function of the tree, of what stands around it, and of what is declared and
//! numbered in front of it. `assertion_resolved` and `part_resolved` are what it says, and so is what is declared and
//! numbered behind; they refuse nothing, and want of memory alone is free.
#![tactic(auto)]

mod assertions;
pub mod cases;
pub mod reading;
pub mod standing;

pub use assertions::{assertion_resolved, part_resolved};
pub use standing::{Around, Standing};
