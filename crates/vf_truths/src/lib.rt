//! The literals of truth values.
//!
//! A term of boolean sort is brought to one literal however it is spelled: alone, under negations, or
//! compared with truth values.
//!
//! `truth_literal` is the literal that `specs/` gives to a term in normal form and a truth value; law
//! `truth_literals_mean_it` (whatever is declared, where the term without its negations and the truth values that it
//! is compared with has a truth value, a valuation meets the literal exactly where the term has the wanted truth
//! value); examples: `truths_in_examples`.
#![tactic(auto)]

mod bare;
mod examples;
mod laws;
mod truth;

pub use examples::truths_in_examples;
pub use laws::truth_literals_mean_it;
pub use truth::truth_literal;
