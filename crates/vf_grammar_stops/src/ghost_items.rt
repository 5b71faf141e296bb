//! Where the parsers of contracts, claims, invariants and ghost items stop, they stop on all tokens that begin alike,
//! and nothing of the kind could go on.
//!
//! Each parser on lists of `vf_parse_ghost` does the same on other tokens that are alike up to the token in front of
//! which it stopped, also where more may nest in the others.
//!
//! Laws: `contracts_refuse_alike`, `invariants_refuse_alike`, `ghost_items_refuse_alike`, `claims_stop_alike`,
//! `contracts_stop_alike`, `invariants_stop_alike`, `ghost_items_stop_alike`. Of what nests too deep it is not said
//! here that nothing could go on.

pub mod laws;
