//! Whatever spells a sort or an expression of ghost text is read as that.
//!
//! The parsers on lists of `vf_parse_term` read what the relation of `vf_syntax` spells: here stand the laws
//! that no spelled sort or expression is refused and that tokens spell one expression at most.
//!
//! Laws: a sort or an expression that tokens spell within the nesting that is allowed is read from them, where
//! nothing behind goes on with it (`sorts_are_read`, `terms_are_read`); tokens spell one expression at most, places
//! included (`terms_have_one_reading`).

pub mod laws;
