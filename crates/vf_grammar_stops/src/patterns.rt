//! Where the parsers of shares, patterns and cases stop, nothing of the kind could go on.
//!
//! Each parser on lists of `vf_parse_pattern` does the same on other tokens that are alike up to the token in front
//! of which it stopped, also where the others may nest deeper.
//!
//! Laws: a token is refused only where no tokens that are alike up to it begin with such a thing
//! (`shares_stop_alike`, `any_shares_stop_alike`, `patterns_stop_alike`, `pattern_lists_stop_alike`,
//! `any_patterns_stop_alike`, `cases_stop_alike`). Of what nests too deep it is not said here that nothing could go
//! on.

pub mod laws;
