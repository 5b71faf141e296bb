//! Whatever the grammar spells is read: each folder has the laws of one layer of the parsers.
#![tactic(auto)]

pub mod assertions;
pub mod chunks;
pub mod commands;
pub mod expressions;
pub mod ghost_items;
pub mod patterns;
pub mod simple_statements;
pub mod statements;
pub mod supported;
pub mod terms;
pub mod units;
pub mod whole_units;
