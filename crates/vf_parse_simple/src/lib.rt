//! Assignments, calls and declarations: tokens to trees.
//!
//! Each call gives what a parser on lists of tokens gives (`specs/Simples.antt`); the laws say that what it
//! reads is spelled by the tokens that it takes, within the nesting that is allowed.
//!
//! Laws: `simples_are_spelled`, `firsts_are_spelled`, `declared_are_spelled`, `values_are_spelled`.
#![tactic(auto)]

pub mod forms;
pub mod laws;
pub mod simple;
