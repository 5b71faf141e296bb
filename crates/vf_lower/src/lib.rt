//! Lowering of C: what expressions come to in steps.
//!
//! [`lowered`] adds to a [`Draft`] the nodes that an expression does and the locals that it takes, and answers what is
//! left of it: a value, a test, or an access whose result is still to be put somewhere. `specs/` says what expressions
//! and statements become.
//!
//! In `specs/`: what C expressions, assignments, calls, statements and bodies become, as functions on trees: from the
//! number of the next local on, the nodes, the types of the locals that are taken, and what is left: a value, a test,
//! or an access that is still to be put somewhere. `lowered` adds to a draft the nodes and locals that the definition
//! gives an expression and answers what is left of it, `valued` and `tested` the same as a value and as a test,
//! `passed` as a value that passes for one of a type; whatever the expression is, typed or not; want of memory alone
//! is free. Law: `lowered_in_examples` (what a sum, comparisons, conversions, a changed local and a loop become).
#![tactic(auto)]

mod call;
mod convert;
mod draft;
pub mod examples;
mod expr;
mod operand;
mod operator;
mod setting;
mod test;

pub use convert::adapted;
pub use draft::Draft;
pub use expr::{joined, lowered, passed, tested, valued};
pub use operand::{Access, Left, Outcome, as_value, left_passed, set_local};
pub use operator::{is_void, result_type};
pub use setting::{Kind, Setting, find_kind, place_of};
pub use test::Test;
