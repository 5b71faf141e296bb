//! The numbers that the locals of C in a body have among all locals of its core, in the order of their declarations.
//!
//! Lowering numbers locals as it takes them, and takes more of them than are declared. [`local_numbers`] goes over a body
//! as lowering does, and notes the numbers of those that are declared: the parameters first, and then the locals in the
//! order of the text. Each part of the text is lowered once more for it.
//!
//! In `specs/`: what is counted of a body, over what `vf_lower` says that its parts become. `local_numbers` is what it
//! says; want of memory alone is free. Law: `counting_is_lowering` (behind each statement what is counted stands where
//! lowering stands).
#![tactic(auto)]

mod counting;
mod first;
mod function;
mod laws;
mod put;
mod statement;

pub use counting::Counting;
pub use function::local_numbers;
pub use laws::counting_is_lowering;
pub use statement::count_statement;
