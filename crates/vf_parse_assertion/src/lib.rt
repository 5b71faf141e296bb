//! The parser of assertions.
//!
//! `(` begins an expression or an assertion, which is known only behind the `)`: an assertion is read, and where
//! its tokens spell an expression too the parenthesis is an operand, behind which the expression goes on.
//!
//! Each call gives what a parser on lists of tokens gives (`specs/Parsers.antt`), and the laws say that what it
//! reads is spelled by the tokens that it takes, within the nesting that is allowed.
#![tactic(auto)]

pub mod assertions;
pub mod contents;
pub mod laws;
