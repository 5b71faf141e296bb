//! What assertions declare.
//!
//! [`assertion_given`] goes over an assertion at a place of a unit. It declares the names that its patterns bind, each
//! visible from the part behind its own on, and inside a branch in that branch alone; or it refuses the assertion at
//! its first fault in the order of the text, what stands in an expression before what stands around it. What comes to
//! be known of unknown sorts is kept in [`vf_sorts::Unknowns`].
//!
//! In `specs/`: what assertions declare behind them, and where they are refused, by one rule for each form: chunks
//! and cells, truth values, conditionals, `switch` over the values of a datatype, and assertions in parentheses; each
//! rule goes from a scope and what is known of unknown sorts to the scope and what is known then. `assertion_given`
//! and `part_given`: what is declared is what the rules of `Gives` and `PartGives` give, and a refusal is one that
//! the rules of `AnyPartFails` and `PartFails` give, by its rule and place; nothing that was unknown is lost. The
//! rules give one answer at most (`vf_order_laws::determined`).
#![tactic(auto)]

mod assertions;
pub mod cases;
mod distinct;
pub mod switches;

pub use assertions::{assertion_given, part_given};
