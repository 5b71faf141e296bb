//! Lowering of C: what statements and whole bodies come to in steps, with ghost commands and invariants at their places.
//!
//! [`lower_body`] goes over the statements of a body in the order of the text, and adds to a [`vf_lower::Draft`] the
//! nodes that they do and the locals that they take. What is declared grows with each declaration, in
//! [`Surroundings`], and is as before behind each block.
//!
//! `lower_simple`, `lower_statement` and `lower_body` add to a draft the nodes and locals that the definition gives
//! an assignment or a call, a statement and a body, with ghost commands and invariants at their places; what is
//! declared behind a statement is what the definition says, and behind a body it is as before; whatever the text is,
//! typed or not; want of memory alone is free.
#![tactic(auto)]

mod assignment;
mod body;
mod branch;
mod change;
mod declaration;
mod last;
mod simple;
mod statement;
mod surroundings;

pub use body::lower_body;
pub use simple::lower_simple;
pub use statement::lower_statement;
pub use surroundings::{Mark, Surroundings};
