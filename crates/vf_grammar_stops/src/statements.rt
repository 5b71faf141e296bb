//! Where the parser of statements stops, no statement could go on.
//!
//! In `proofs/` the parsers of annotations are given from outside, and what is owed of each is that it stops alike
//! on tokens that are alike; the laws are those of the language without annotations.
//!
//! Laws, of statements and bodies without annotations: a token is refused only where no tokens that are alike up to
//! it begin with one (`plain_statements_stop_alike`, `plain_bodies_stop_alike`). Of what nests too deep it is not
//! said here that nothing could go on.

pub mod laws;
