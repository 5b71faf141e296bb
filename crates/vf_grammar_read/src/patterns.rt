//! Whatever spells a share, a pattern or what a case is for is read as that.
//!
//! The parsers on lists of `vf_parse_pattern` read what the relation of `vf_syntax` spells: here stand the laws
//! that nothing spelled is refused.
//!
//! Laws, as for terms (`shares_are_read`, `patterns_are_read`, `cases_are_read`).

pub mod laws;
