//! What is left of a function in steps without its annotations.
//!
//! Ghost commands, declarations without a value, and the heads and ends of loops do nothing when a program runs. [`erase`]
//! leaves them out, and skips and goes back over those nodes alone that are left.
//!
//! `erase` and `erase_all` give just what the definition leaves; want of memory alone is free.
#![tactic(auto)]

mod counts;
mod function;
mod nodes;

pub use function::{PlainFunction, erase, erase_all};
