//! The syntax of C and of its annotations as trees.
//!
//! Each node has the place of its first token, and of each other token that a refusal may name.
//! Contracts see trees as pure data without pointers, places included.
//!
//! Each tree means its pure data; keywords and operators are spelled, and told by their spelling, as the tables say.
#![tactic(auto)]

pub mod assertion;
pub mod contract;
pub mod expr;
pub mod ghost_command;
pub mod ghost_expr;
pub mod item;
pub mod keyword;
pub mod operator;
pub mod pattern;
pub mod side;
pub mod simple;
pub mod sort;
pub mod stmt;
pub mod written;
