//! Whether the equations of a fixpoint give it a value.
//!
//! A fixpoint that goes by a `switch` over one of its parameters has one case for each constructor of that
//! parameter's datatype, and calls itself only with a component that the case gives names to. So each call goes to a
//! smaller value, and the equations are those of one function. A fixpoint without a `switch` does not call itself.
//!
//! `check_fixpoint` refuses a fixpoint exactly where the definition does, at its place: at the name where a case is
//! missing or doubled, else at the first call that does not pass a component. Law: `strays_are_calls` (no call strays
//! exactly where each call anywhere in the value passes a component).
#![tactic(auto)]

mod calls;
mod cases;
mod check;
pub mod laws;

pub use check::check_fixpoint;
