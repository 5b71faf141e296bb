//! Whether the order of two operands matters anywhere.
//!
//! C evaluates the operands of an operator, the arguments of a call and the two sides of an assignment in an order
//! that is not set (C11 6.5 and 6.5.2.2). So a unit is refused where one of two operands holds a call and the other a
//! call or a read. `specs/` says what an expression holds and where a unit is refused; [`first_unordered`] finds the
//! first such place.
//!
//! `first_unordered` gives none where there is no such place, and takes no memory. Law: `refusals_are_of_pairs` (an
//! expression is refused nowhere exactly where no two operands anywhere in it are out of order).
#![tactic(auto)]

mod expr;
pub mod laws;
mod seen;
mod stmt;
mod unit;

pub use unit::first_unordered;
