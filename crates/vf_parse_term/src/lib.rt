//! The parser of sorts and of the expressions of ghost text.
//!
//! Each call gives what a parser on lists of tokens gives (`specs/Sorts.antt`, `specs/Terms.antt`), and the
//! laws say that those give what the tokens spell.
#![tactic(auto)]

pub mod laws;
pub mod sorts;
pub mod terms;
