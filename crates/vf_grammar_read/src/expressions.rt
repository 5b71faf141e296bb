//! Whatever spells an expression is read as that expression.
//!
//! The parsers on lists of `vf_parse_expression` read what the relation of `vf_syntax` spells: here stand the
//! laws that no spelled expression is refused and that tokens spell one expression at most.
//!
//! Laws: an expression that tokens spell within the nesting that is allowed is read from them, where nothing behind
//! goes on with it (`expressions_are_read`, `postfixes_are_read`, `types_are_read`); tokens spell one expression at
//! most, places included (`expressions_have_one_reading`).

pub mod laws;
