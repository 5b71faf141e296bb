//! What annotations declare in front of a body.
//!
//! [`declare_family`] declares a family of predicates, [`declare_predicate_constructor`] a predicate constructor and
//! [`declare_fixpoint`] a fixpoint, each at its first fault in the order of the text refused. Behind the latter two their
//! parameters are locals, as their bodies see them.
//!
//! In `specs/`: what is declared behind a family, and in front of the bodies of predicate constructors and fixpoints,
//! or the first refusal in the order of the text: names, type parameters, sorts of parameters and results, and
//! parameters as locals. `declare_family`, `declare_predicate_constructor` and `declare_fixpoint` leave the scope
//! that the definition gives, or answer its refusal, unless memory ran out; `declare_parameters` and `local_refusal`
//! the same of parameters and of names of ghost locals.
#![tactic(auto)]

mod heads;
pub mod parameters;

pub use heads::{declare_family, declare_fixpoint, declare_predicate_constructor};
