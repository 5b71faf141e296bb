//! Programs of several units: accepted, linked and safe.
//!
//! The definitions stand in `specs/`; the code here is public functions with an empty body, each of
//! which has a law as its contract.
//!
//! In `specs/`: when the contract of a lemma's definition refines that of its prototype (one call of the lemma, with
//! ghost steps before and behind it), the order of calls between lemmas, when the lemmas of linked units are accepted
//! (each where the others that it calls hold, and none reaching itself), and when units are accepted and linked. Laws:
//! `refined_lemmas_hold`, `calls_are_ordered` (where no lemma reaches itself over calls there is an order of them),
//! `linked_lemmas_hold`, `linked_programs_are_safe`, and `linked_programs_leak_nothing` (where no `leak` stands in any
//! unit, whichever lemmas of other units are called).
#![tactic(auto)]

mod laws;

pub use laws::{
    calls_are_ordered, linked_lemmas_hold, linked_programs_are_safe, linked_programs_leak_nothing,
    refined_lemmas_hold,
};
