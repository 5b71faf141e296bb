//! What stands anywhere in a unit: its datatypes, its structs and its predicates, with the files in which they stand.
//!
//! In `specs/`: in which files names stand, which datatypes, structs and predicates stand in items, and sorts as far
//! as they can be told ahead of a text. `datatypes_of`: a table that tells of each name just the files in which a
//! datatype of that name stands, in their order; `ahead_of`: the datatypes with their type parameters and the
//! structs, each with its number; `predicates_of`: such a table of predicates, and the sorts that the first of each
//! name takes, with any value where a sort can not be told; `told`, `told_parameters`.
#![tactic(auto)]

mod ahead;
mod foretold;
mod items;
mod standing;
mod telling;

pub use ahead::{Ahead, ahead_of};
pub use foretold::{Foretold, predicates_of};
pub use items::datatypes_of;
pub use telling::{told, told_parameters};
