//! What is known of the answers of the parser of one part of an annotation.
//!
//! Whatever spells a part is answered, with the index behind it; where a place is refused, no such part begins with
//! the tokens up to there; and where one is too deep, the parser goes on behind it where more may nest.
//!
//! Laws, of each answer that the contract of `vf_parse_part::parse_ghost` allows: `parts_are_taken`,
//! `spelled_parts_are_answered`, `refused_parts_do_not_begin`, `too_deep_parts_go_on` (where two more may nest) and
//! `parts_are_supported` (no token is refused by name).
#![tactic(auto)]

pub mod laws;
