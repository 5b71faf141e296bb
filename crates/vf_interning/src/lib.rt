//! Literals that become facts over a table of numbered terms, one after the other along a path.
//!
//! Each term is kept once, behind its parts, and has the number of its place. The table and the facts
//! over it are those of `vf_combination`, which decides their closure as they come and takes them back
//! level by level; the law of readings of `vf_reading` carries what it answers back to the literals.
//!
//! `refuted` holds exactly where the closure of the literals has a conflict, no fixpoint being unfolded, and where it
//! has none `same` holds exactly where two of their terms are equal in it; `assume` and `assume_equal` add one
//! literal, `end` leaves exactly those of the last level's beginning; where there is no memory nothing is added.
//! Exact for the literals of `vf_question`.
#![tactic(auto)]

mod facts;
mod heads;
mod interning;
mod numbering;

pub use interning::Interning;
pub use numbering::{MOST_ARISING, place};
