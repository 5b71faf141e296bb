//! Where the parser of assertions stops, it stops on all tokens that begin alike, and no assertion could go on.
//!
//! Each parser on lists of `vf_parse_assertion` does the same on other tokens that are alike up to the token in front
//! of which it stopped, also where the others may nest deeper.
//!
//! Laws: where a token is refused, one is refused in all tokens that are alike up to it, also where more may nest
//! (`assertions_refuse_alike`), and no assertion begins with such tokens, before what does not go on with it
//! (`assertions_stop_alike`). Of what nests too deep it is not said here that nothing could go on.

pub mod laws;
