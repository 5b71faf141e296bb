//! What a unit promises others and wants of them: the lines of its manifest.
//!
//! A unit provides the functions and lemmas that have bodies in it, and requires those that its bodies mention, or
//! beside which a claim stands, and that have none. [`promised`] gives the lines of the manifest of a unit that names,
//! types and sorts accept, from its items, from what is declared behind them, and from the snapshot of its files.
//!
//! In `specs/`: what tags, function types and datatypes are called, how signatures are spelled, what the names of a unit
//! mean for its manifest, which names it requires, and its lines. The code gives just these lines, in near linear time;
//! want of memory alone is free, and so is a number of a file that is too great for any.
#![tactic(auto)]

mod item;
mod meaning;
mod required;
mod signature;
mod type_names;
mod unit;

pub use unit::promised;
