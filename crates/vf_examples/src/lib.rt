//! Examples: definitions that are not empty, and what the rules accept and refuse.
//!
//! They stand above the definitions and the rules that they are of, and nothing stands on them. The
//! definitions stand in `specs/`; the code here is public functions with an empty body, each of which
//! has an example as its contract.
//!
//! Of meaning: `held_mutex_is_meant`, `calls_are_kept` (a call through a pointer and a thread); of lemmas:
//! `lemmas_are_accepted`, `lists_have_values`, `nesting_is_accepted` (by depth), `halving_is_accepted` (by depth, in two shares),
//! `splitting_is_accepted` (a call of `ints_split`); of programs: `box_is_accepted`, `elements_are_accepted` (an array
//! read and written at an index), `counting_is_accepted` (a loop and a call through a pointer),
//! `everything_is_accepted` (a loop, a heap, a recursive predicate, a mutex and two threads in one),
//! `claiming_is_accepted` (three functions that keep the contracts of types which they claim, by what a chunk shows, a
//! name for what is left open, and a case split), `passing_is_accepted` and `waiting_is_accepted` (a mutex and a thread
//! of which the precondition leaves an argument open), `unsafe_are_refused` (a program that comes to a fault and one that
//! comes to a race are accepted in no environment), `examples_leak_nothing`, `leaving_is_accepted` (a program with a
//! leak); of several units: `two_units_are_accepted` (a call of a function and one of a lemma by the contracts of their
//! prototypes in another file).
#![tactic(auto)]

mod instances;
mod lemmas;
mod programs;
mod units;

pub use instances::{calls_are_kept, held_mutex_is_meant};
pub use lemmas::{
    halving_is_accepted, lemmas_are_accepted, lists_have_values, nesting_is_accepted,
    splitting_is_accepted,
};
pub use programs::{
    box_is_accepted, claiming_is_accepted, counting_is_accepted, elements_are_accepted,
    everything_is_accepted, examples_leak_nothing, leaving_is_accepted, passing_is_accepted,
    unsafe_are_refused, waiting_is_accepted,
};
pub use units::two_units_are_accepted;
