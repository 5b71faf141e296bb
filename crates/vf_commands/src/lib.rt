//! What ghost commands declare.
//!
//! [`command_given`] goes over a ghost command at a place of a unit, and [`body_given`] over the body of a lemma. Each
//! declares what is visible behind it: ghost locals, and the names that patterns bind; what stands in a block or a case
//! is visible in that alone. Or it refuses the first fault in the order of the text, what stands in an expression before
//! what stands around it.
//!
//! In `specs/`: what ghost commands declare behind them, and where they are refused, by one rule for each form:
//! `open` and `close`, `leak` and `assert`, ghost locals and their assignments, calls of lemmas, `if`, `switch` over
//! the values of a datatype, blocks, and bodies of lemmas; each rule goes from a scope and what is known of unknown
//! sorts to the scope and what is known then. `command_given`: what is declared behind a ghost command is what the
//! rules of `CommandGives` give, and a refusal is one that the rules of `CommandFails` give, by its rule and place,
//! in the form that `vf_walk::Annotations` asks for. `body_given` the same of the commands of a lemma's body, one
//! after another. The rules give one answer at most (`vf_order_laws::determined`). [`given`] goes over one command and
//! keeps what it declares of unknown sorts, for who reads the command once more.
#![tactic(auto)]

pub mod around;
mod assignments;
mod bodies;
mod callee;
mod calls;
mod commands;
mod opening;
mod switches;

pub use around::{Around, around_statements};
pub use bodies::{body_given, command_given};
pub use commands::given;
