//! C files: tokens to trees.
//!
//! A tree that is answered spells all of the tokens, and no token of it nests deeper than 128. What is
//! refused is refused with the place of a token, as `specs/` says of each fault.
//!
//! `parse_by` and `parse_plain`: a unit is spelled by all of the tokens, nested at most 128 deep (`spelled`); the
//! first token that is refused by name is found exactly (`unsupported`); every other answer is what the parser on
//! lists comes to, by its place (`read`).
#![tactic(auto)]

pub mod fault;
pub mod plain;
pub mod unit;
pub mod unsupported;
