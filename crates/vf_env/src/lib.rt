//! What a unit declares, each name with its trees: the items of the unit that declare it.
//!
//! In `specs/`: which names of file level and which tag an item declares, the numbers of the items that declare a
//! name, and when lists of them stand beside names. `describe`: the scope that is given, without its locals, beside
//! its names and its tags the numbers of the items that declare each, in time near the number of the names that the
//! items declare, and the fixpoints as definitions of the prover; it is refused only where `vf_defining` is.
//! `Env::trees_of` and `tag_trees_of`: the items that declare a name or a tag, none where it is not declared.
#![tactic(auto)]

mod env;
mod noting;
mod trees;

pub use env::{Env, describe};
