//! Whatever spells an assertion is read as that.
//!
//! The parsers on lists of `vf_parse_assertion` read what the relation of `vf_syntax` spells: here stand the laws
//! that no spelled assertion is refused and that tokens spell one assertion at most.
//!
//! Laws: an assertion that tokens spell within the nesting that is allowed is read from them, where nothing behind
//! goes on with it (`assertions_are_read`); tokens spell one assertion at most, places included
//! (`assertions_have_one_reading`).

pub mod laws;
