//! Contracts and bodies of predicates, resolved.
//!
//! [`contract_resolved`] and [`body_resolved`] sort a contract or a body behind its parameters, which are the locals,
//! and then resolve it with what is known of unknown sorts in the end. `result`, `this` and `currentThread` are symbols
//! of their own.
//!
//! In `specs/`: the resolved trees as functions of what is known, and which of these a contract or a body comes to.
//! Both calls: what is answered is one of these, and a refusal is that of the sorting, by its rule and place.
#![tactic(auto)]

mod bodies;
mod contracts;
mod starts;
mod words;

pub use bodies::{BodyRead, body_resolved};
pub use contracts::{ContractRead, contract_resolved};
pub use starts::starting;
pub use words::{result_symbol, this_symbol, thread_symbol};
