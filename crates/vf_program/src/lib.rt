//! One program of several units.
//!
//! A unit has functions and structs in the core of whole programs, with names by a table of its own. [`assemble`] makes one
//! program of several: all their functions in order, each struct once, and the function that the program begins with.
//! What is called goes by identity, so that calls of functions that other units have are joined.
//!
//! It gives the program that the definition gives. Want of memory alone is free, and so is a number that is too great for
//! a program. It takes time near linear in what the units hold.
#![tactic(auto)]

mod assembly;
mod index;
mod once;
mod renamed_step;
mod renaming;
mod texts;
mod unit;

pub use assembly::assemble;
pub use texts::push_texts;
pub use unit::PlainUnit;
