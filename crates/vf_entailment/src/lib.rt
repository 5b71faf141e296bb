//! From right answers to entailment: how the rules read what the prover answers.
//!
//! The definitions stand in `specs/`; the code here is public functions with an empty body, each of
//! which has a law as its contract.
//!
//! In `specs/`: the ghost expression that a term means, in which what is of the kind of integers is read as a whole
//! number whatever its value; the fact that a literal is; and when a unit's fixpoints, as the prover unfolds them,
//! stand among those of an environment. Laws: `right_answers_entail` (where an answer is right, the facts of its
//! path entail a goal that is proved), `right_answers_serve_states`, `proved_falsehood_is_infeasible`,
//! `linked_answers_entail` (the same in the linked environment of the unit that asked and others),
//! `definitions_are_met` (the meaning of an environment gives the fixpoints of a unit among its own the values of
//! their bodies), `terms_have_their_meaning`, `whole_numbers_stay`, `literals_are_facts`,
//! `bodies_stay_of_their_kind`, `linked_definitions_stand`; examples: `lists_entail`, `integers_are_whole`.
#![tactic(auto)]

mod examples;
mod laws;

pub use examples::{integers_are_whole, lists_entail};
pub use laws::{
    bodies_stay_of_their_kind, definitions_are_met, linked_answers_entail,
    linked_definitions_stand, literals_are_facts, proved_falsehood_is_infeasible,
    right_answers_entail, right_answers_serve_states, terms_have_their_meaning, whole_numbers_stay,
};
