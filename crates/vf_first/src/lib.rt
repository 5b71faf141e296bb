//! The first form of files.
//!
//! The first form is a `main` of declarations, assignments and a return over sums of numbers and
//! locals, which requires `true` and promises `true` or a number. [`first_form`] gives the core of a
//! file whose tree is of the form, and nothing just where it is not.
#![tactic(auto)]

mod contracts;
mod names;
mod statements;
mod stop;
mod sums;
mod unit;

pub use unit::first_form;
