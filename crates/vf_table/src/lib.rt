//! The terms of a question as a table.
//!
//! A term is a number; its [`Node`] has a head and the numbers of its parts. The table tells heads
//! apart only as far as the closure of a question does.
//!
//! Each call tells what the definition says of a node.
#![tactic(auto)]

mod node;

pub use node::{
    Head, Node, Shift, have_clashing_heads, have_one_head, is_injective, is_integer, is_zero,
    number_at, parts_are_below, shift_at,
};
