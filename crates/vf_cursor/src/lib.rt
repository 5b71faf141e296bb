//! Tokens that are still to be read, and the smallest things that are read from them.
//!
//! Each call that takes tokens gives what a parser on lists of tokens gives (`specs/Parsing.antt`), which
//! the laws of this crate and of those above it compare with the definition of spelling.
//!
//! A call gives the tokens that the parser on lists leaves, or the fault and how many tokens are left there.
#![tactic(auto)]

pub mod cursor;
pub mod fault;
pub mod operators;
pub mod written;
