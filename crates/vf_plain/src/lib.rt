//! The plain reading of a unit in the core of whole programs.
//!
//! A unit that was lowered and lost its annotations has functions, structs and function types by numbers of its own.
//! [`plain_unit`] makes functions and structs of the core of whole programs of it, where each has its identity: the path
//! of the file of its first declaration and its name.
//!
//! It gives what the definition gives. Want of memory alone is free, and so is a number that is too great for a program.
//! It takes time near linear in what the unit holds.
#![tactic(auto)]

mod identity;
mod names;
mod unit;

pub use unit::plain_unit;
