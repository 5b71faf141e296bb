//! A file by itself: its plain unit and the lines of its manifest, or its first refusal.
//!
//! [`read_unit`] reads a file with what it includes, cuts it into tokens, parses its unit, goes through the phases of
//! names, types and sorts, of fixpoints and of the order of operands, and makes steps of what is left without annotations.
//! It asks nothing of a prover. [`parse_unit`] is the part of it that ends with a tree.
//!
//! `read_unit`: what is read is the plain unit of the file and what it promises and needs, by what the files tell, or the
//! refusal in the first phase that refuses it; the other answers have their causes. Exact, as far as the parser's refusals of
//! depth are.
#![tactic(auto)]

mod items;
mod parsing;
mod reading;

pub use items::ReadUnit;
pub use parsing::{Parsed, parse_unit, refusal_at};
pub use reading::{Reading, UnitFault, read_unit};
