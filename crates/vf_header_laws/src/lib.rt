//! A header means the same in every unit: the files of which it consists, its names in C text, and its names in annotations.
#![tactic(auto)]

pub mod c_names;
pub mod expanded;
pub mod ghost_names;
pub mod included;
