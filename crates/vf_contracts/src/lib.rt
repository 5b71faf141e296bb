//! What contracts and invariants declare.
//!
//! [`owned_contract_given`] goes over the contract of a function or function type behind its parameters, and
//! [`invariant_given`] over the invariant of a loop. Each declares the names that its patterns bind, or refuses the
//! first fault in the order of the text. [`contract_given`] is for other contracts: it is told what may stand in them.
//!
//! In `specs/`: what contracts and invariants declare behind them, and where they are refused: which words may stand
//! in a precondition, in a postcondition and in an invariant; that the names of a precondition are visible in the
//! postcondition and behind the contract, and those of a postcondition in it alone. `owned_contract_given` and
//! `invariant_given`: what is declared behind the contract of a function or function type, and behind the invariant
//! of a loop, is what `OwnedComes` and `InvariantComes` give, and a refusal is one that they give, by its rule and
//! place, in the form that `vf_walk::Annotations` asks for. `contract_given` the same of a contract for which it is
//! told what may stand in it. The rules give one answer at most (`vf_order_laws::determined`).
#![tactic(auto)]

mod contexts;
mod contracts;

pub use contracts::{contract_given, invariant_given, owned_contract_given};
