//! What predicates, predicate constructors and bodies of families declare.
//!
//! [`declare_predicate`] and [`declare_predicate_body`] go over a predicate, which may be declared once without a body
//! and once with one; [`declare_constructor_body`] over a predicate constructor, and [`declare_instance`] over a body of
//! a family for a function. Each leaves what is declared behind it, or refuses its first fault in the order of the text.
//!
//! In `specs/`: what is declared behind predicates, with a body or without one, predicate constructors and bodies of
//! families for functions, or their first refusal in the order of the text. `declare_predicate`,
//! `declare_predicate_body`, `declare_constructor_body` and `declare_instance`: what is declared is what the
//! definition relates to what was declared before, and a refusal is one that it gives; a predicate is declared once
//! without a body and once with one, over sorts that are alike, and a family has one body for each function.
//! `are_same` compares lists of sorts exactly.
#![tactic(auto)]

mod alike;
mod bodies;
mod earlier;
mod instances;
mod predicates;

pub use alike::are_same;
pub use instances::declare_instance;
pub use predicates::{declare_constructor_body, declare_predicate, declare_predicate_body};
