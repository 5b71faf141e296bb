//! The parser of chunks, cells and expressions in assertions: the parts in which no assertion stands.
//!
//! Each call gives what a parser on lists of tokens gives (`specs/Chunks.antt`), and the laws say that what it
//! reads is spelled by the tokens that it takes, within the nesting that is allowed.
#![tactic(auto)]

pub mod chunks;
pub mod laws;
pub mod pieces;
