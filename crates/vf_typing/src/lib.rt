//! Types of C expressions.
//!
//! [`typed`] gives the type of an expression at a place of a unit, or refuses the expression where C does not type it:
//! at the first fault in the order of the text, what stands in an operand before what stands around it. Nothing here
//! takes memory.
//!
//! In `specs/`: the type of a C expression, or its first refusal in the order of the text, and rules of which types
//! expressions have: names, numbers, operators and their common types, pointers and the null pointer, casts, choices,
//! fields, arrays of int, memory, and calls of functions and through pointers; written types; assignments and
//! conditions. `typed` gives the type of an expression, or its first refusal by its rule and place; `written_type`,
//! `assigned`, `target`, `refused_simple` and `refused_condition` the same of types, values that have to pass for a
//! type, left sides, assignments and calls, and conditions; without memory. Laws: `types_are_found` (a type is given
//! exactly where one of the rules of `HasType`, one for each form of expression, gives it), `types_are_determined`
//! (an expression has one type at most).
#![tactic(auto)]

mod expr;
pub mod laws;
mod memory;
mod name;
mod operand;
mod operators;
mod passing;
mod refusal;
mod simple;
mod types;
mod written;

pub use expr::{assigned, typed, typed_value};
pub use operand::Operand;
pub use passing::same_types;
pub use refusal::refused;
pub use simple::{refused_condition, refused_simple, target};
pub use written::written_type;
