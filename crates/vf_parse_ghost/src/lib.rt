//! The parser of contracts, claims, invariants and ghost items.
//!
//! Each call gives what a parser on lists of tokens gives (`specs/`), and the laws say that what it reads is
//! spelled by the tokens that it takes, within the nesting that is allowed.
#![tactic(auto)]

pub mod constructors;
pub mod contracts;
pub mod fixpoints;
pub mod items;
pub mod laws;
pub mod parameters;
