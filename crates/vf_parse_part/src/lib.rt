//! The parser of one part of an annotation, by the index of its first token.
//!
//! `parse_ghost`: the part, and the index behind it, or the fault and its place, are what the parser on lists comes
//! to; law: `parts_are_spelled`.
#![tactic(auto)]

pub mod laws;
pub mod part;
