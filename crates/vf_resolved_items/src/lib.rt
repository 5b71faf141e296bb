//! Bodies of predicates and contracts of lemmas, resolved behind the parameters that the text has.
//!
//! [`predicate_resolved`] and [`lemma_resolved`] are given what is declared where an item is, itself among it; they make
//! its parameters locals, sort its body or its contract, and resolve it.
//!
//! In `specs/`: which resolved trees these come to, and where they are refused. Both calls: what is answered is one of
//! these, and a refusal is that of a parameter or of the sorting, by its rule and place.
#![tactic(auto)]

mod items;

pub use items::{lemma_resolved, predicate_resolved};
