//! What is refused for its depth nests deeper than may be: each folder has the laws of one layer.
#![tactic(auto)]

pub mod assertions;
pub mod chunks;
pub mod commands;
pub mod expressions;
pub mod ghost_items;
pub mod patterns;
pub mod statements;
pub mod terms;
pub mod units;
pub mod whole_units;
