//! The closure of a question, and what its refutations show.
//!
//! Terms, their values, literals and the closure stand in `specs/` as pure data; the code here is
//! public functions with an empty body, each of which has a law as its contract.
//!
//! In `specs/`: terms of questions, their values, literals, and the closure of a question with unfolding of
//! fixpoints. Laws: `refutations_are_sound`, `unfoldings_are_enough`, `refutations_entail`; examples:
//! `refutes_by_congruence`, `refutes_by_injectivity`, `refutes_by_a_chain`, `refutes_by_a_squeeze`,
//! `refutes_by_unfolding`, `does_not_refute_symbols`.
#![tactic(auto)]

mod examples;
mod laws;

pub use examples::{
    does_not_refute_symbols, refutes_by_a_chain, refutes_by_a_squeeze, refutes_by_congruence,
    refutes_by_injectivity, refutes_by_unfolding,
};
pub use laws::{refutations_are_sound, refutations_entail, unfoldings_are_enough};
