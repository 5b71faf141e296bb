//! Short refutations of facts over a table of terms: by one chain of bounds, or of equalities.
//!
//! Most conflicts are of this kind: bounds that lead from a term back to itself below 0, or a difference or an
//! equality that is denied. They are looked for in the facts themselves, without classes or distances of all terms.
//! What is found is checked before it is answered, so that nothing rests on how it was found.
//!
//! `short_refutation` answers none, or steps that the check of `vf_refute` accepts; that it finds what there is is
//! not promised.
#![tactic(auto)]

mod chains;
mod graph;
mod links;
mod search;
mod short;
mod writing;

pub use short::{short_refutation, short_steps};
