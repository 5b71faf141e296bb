//! Where the parser of whole units stops, it stops on all tokens that begin alike, and no unit could go on.
//!
//! Laws, of units, the end of the tokens included: `whole_units_refuse_alike`, `whole_units_stop_alike`. Where
//! `parse` refuses a place, no token is unsupported, and no unit begins with the tokens up to there
//! (`refused_wholes_do_not_begin`). Of what nests too deep it is not said here that nothing could go on.

pub mod laws;
