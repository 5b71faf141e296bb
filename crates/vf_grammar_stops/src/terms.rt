//! Where the parsers of sorts and expressions of ghost text stop, nothing of the kind could go on.
//!
//! Each parser on lists of `vf_parse_term` does the same on other tokens that are alike up to the token in front of
//! which it stopped, also where the others may nest deeper.
//!
//! Laws: a token is refused only where no tokens that are alike up to it begin with a sort, or an expression, before
//! what does not go on with it (`sorts_stop_alike`, `terms_stop_alike`). Of what nests too deep it is not said here
//! that nothing could go on.

pub mod laws;
