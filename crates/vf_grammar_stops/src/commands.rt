//! Where the parsers of ghost commands stop, they stop on all tokens that begin alike, and no command could go on.
//!
//! Each parser on lists of `vf_parse_command` does the same on other tokens that are alike up to the token in front
//! of which it stopped, also where more may nest in the others.
//!
//! Laws: `commands_refuse_alike`, `ghost_bodies_refuse_alike`, `commands_stop_alike`, `ghost_bodies_stop_alike`. Of
//! what nests too deep it is not said here that nothing could go on.

pub mod laws;
