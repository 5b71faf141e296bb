//! Terms of questions, as code.
//!
//! Contracts see a [`Term`] as the pure term of `vf_closure` that it is, and its order and its normal
//! form as those of `vf_normal`.
//!
//! Contracts see a `Term` as the pure term of `vf_closure` that it is, and a `Linear` as the sum of `vf_normal`.
//! `Term::copy` gives the same term, `compare` answers as the order of `vf_normal` does, `same` tells whether two
//! terms are one; `form`, `together`, `times_each` and `Linear::term` are what `vf_normal` says of sums, and nothing
//! overflows; `calculated` is the normal form of an operation on two terms in normal form; `Term::normal` is the
//! normal form of every term, and is refused for its fractions exactly where a product of fractions in a share is not
//! kept; `comparison_literal` is the literal of each comparison of two terms in normal form; `Dyadic::times` is the
//! product wherever it is kept.
#![tactic(auto)]

mod calculation;
mod comparison;
mod fraction;
mod head;
mod linear;
mod literal;
mod normal;
mod share;
mod term;

pub use calculation::calculated;
pub use comparison::comparison_literal;
pub use fraction::Dyadic;
pub use head::{Head, Kind, Name};
pub use linear::{Linear, Weighted, form, times_each, together};
pub use literal::Literal;
pub use share::NormalFault;
pub use term::{Term, TermList};
