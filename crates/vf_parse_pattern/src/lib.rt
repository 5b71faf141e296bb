//! The parser of shares, of patterns, and of what cases are for.
//!
//! Each call gives what a parser on lists of tokens gives (`specs/Shares.antt`, `specs/Patterns.antt`), and the
//! laws say that those give what the tokens spell.
//!
//! Laws: `reads_shares`, `reads_patterns`, `reads_cases`.
#![tactic(auto)]

pub mod laws;
pub mod names;
pub mod patterns;
pub mod shares;
