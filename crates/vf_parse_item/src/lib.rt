//! Items of a file: tokens to trees.
//!
//! Each call gives what a parser on lists of tokens gives (`specs/Parsers.antt`); the law says that what it
//! reads is spelled by the tokens that it takes, within the nesting that is allowed.
#![tactic(auto)]

pub mod items;
pub mod laws;
pub mod signatures;
