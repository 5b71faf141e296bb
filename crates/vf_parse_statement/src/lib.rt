//! Statements: tokens to trees.
//!
//! Each call gives what a parser on lists of tokens gives (`specs/Parsers.antt`); the laws say that what it
//! reads is spelled by the tokens that it takes, within the nesting that is allowed. What stands in
//! annotations is read by an implementation of [`annotations::GhostText`].
//!
//! Laws: `statements_are_spelled`, `lists_are_spelled`, `bodies_are_spelled`. The members of `GhostText` are parsers
//! on lists, with laws that what they read is spelled; `NoGhost` reads none.
#![tactic(auto)]

pub mod annotations;
pub mod flat;
pub mod laws;
pub mod statements;
