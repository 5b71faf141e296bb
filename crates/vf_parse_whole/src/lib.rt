//! The parser of files of the whole language: C text, and the annotations in it.
//!
//! `parse` promises the same as `vf_parse_real::parse_by`, with all that annotations may hold.
#![tactic(auto)]

pub mod annotations;
pub mod parse;
