//! Where the parsers stop, no text of the grammar goes on: each folder has the laws of one layer.
#![tactic(auto)]

pub mod assertions;
pub mod chunks;
pub mod commands;
pub mod expressions;
pub mod ghost_items;
pub mod patterns;
pub mod simple_statements;
pub mod statements;
pub mod terms;
pub mod types;
pub mod units;
pub mod whole_units;
