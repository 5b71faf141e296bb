//! Expressions of real text: tokens to trees.
//!
//! Each call gives what a parser on lists of tokens gives (`specs/Parsers.antt`); the laws say that what it
//! reads is spelled by the tokens that it takes, within the nesting that is allowed.
#![tactic(auto)]

pub mod expr;
pub mod laws;
pub mod operands;
