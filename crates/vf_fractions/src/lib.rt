//! Dyadic fractions as code: the shares of chunks.
//!
//! Contracts see a [`Dyadic`] as the fraction of `vf_model` that it is. `half`, `plus`, `minus`, `times` and `over` are
//! the half, the sum, the difference, the product and the quotient, each none exactly where the result has no form: it
//! is not above 0, its numerator in lowest terms is 2^63 or more, or its denominator more than 2^60. Laws:
//! `differences_add_up`, `quotients_multiply_back`; those of sums, products and the order are `vf_meaning`'s.
#![tactic(auto)]

mod dyadic;
mod laws;

pub use dyadic::{Dyadic, Quotient};
pub use laws::{differences_add_up, quotients_multiply_back};
