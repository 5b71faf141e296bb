//! The parser of ghost commands.
//!
//! Each call gives what a parser on lists of tokens gives (`specs/Flats.antt`, `specs/Commands.antt`), and the
//! laws say that what it reads is spelled by the tokens that it takes, within the nesting that is allowed.
#![tactic(auto)]

pub mod commands;
pub mod flat;
pub mod laws;
