//! Where the parser of expressions stops, no expression could go on.
//!
//! Each parser on lists of `vf_parse_expression` does the same on other tokens that are alike up to the token
//! in front of which it stopped, also where the others may nest deeper.
//!
//! Laws: a token is refused only where no tokens that are alike up to it begin with an expression, or with a primary
//! expression and what stands behind it, however deep these nest (`expressions_stop_alike`, `postfixes_stop_alike`).
//! Of what nests too deep it is not said here that nothing could go on.

pub mod laws;
