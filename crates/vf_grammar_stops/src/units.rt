//! Where the parser of units stops, no unit could go on.
//!
//! In `proofs/` the parsers of annotations are given from outside, and what is owed of each is that it stops alike
//! on tokens that are alike; the laws are those of the language without annotations.
//!
//! Laws, of items and units without annotations, the end of the tokens included: `plain_items_stop_alike`,
//! `plain_units_stop_alike`. Where `parse_plain` refuses a place, no token is unsupported, and no unit begins with
//! the tokens up to there (`refused_units_do_not_begin`). Of what nests too deep it is not said here that nothing
//! could go on.

pub mod laws;
