//! The prelude: the headers that `vf` itself supplies, with the contracts of what they declare.
//!
//! `prelude` gives the text of a name, and none for any other name.
#![tactic(auto)]

mod headers;

pub use headers::prelude;
