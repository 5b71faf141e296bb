//! Sorts of ghost expressions.
//!
//! [`sorted`] gives the sort of an expression at a place of a unit, and [`checked`] tells whether an expression passes
//! for a wanted sort. Both refuse the expression at its first fault in the order of the text, what stands in an
//! expression before what stands around it. What comes to be known of unknown sorts is kept in
//! [`vf_sorts::Unknowns`].
//!
//! In `specs/`: which sorts ghost expressions have and where they are refused, by one rule for each form: names,
//! applications with type parameters, operators, choices, the null pointer where a pointer is wanted, `any`, and
//! pointers that are moved; each rule goes from what is known of unknown sorts to what is known then. `sorted` and
//! `checked`: a sort that is answered is one that the rules of `HasSort` give, an expression that passes for a wanted
//! sort passes by those of `Passes`, and a refusal is one that the rules of `IsRefused` or `Fails` give, by its rule
//! and place; nothing that was unknown is lost. `written_sort` gives the sort that is written, or its first refusal,
//! just as its definition does. An expression has one sort or one refusal at most, and so does each annotation in
//! which one is checked (`vf_order_laws::determined`).
#![tactic(auto)]

mod context;
mod forms;
pub mod fresh;
pub mod kinds;
pub mod names;
mod operand;
mod operators;
pub mod refusal;
mod scheme;
mod sorts;
pub mod words;
pub mod written;

pub use context::Context;
pub use scheme::Scheme;
pub use sorts::{checked, sorted};
pub use written::written_sort;
