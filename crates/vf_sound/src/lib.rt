//! Why what the rules accept is safe.
//!
//! The definitions stand in `specs/`; the code here is public functions with an empty body, each of
//! which has a law as its contract.
//!
//! In `specs/`: what right answers allow a course to come to, the environment of a unit, what a reader of units owes,
//! and share-outs while nobody owns anything. Law `accepted_is_safe`: where the rules accept a unit by right answers,
//! and something gives the fixpoints of the unit that asked the values of their bodies, no list of events brings its
//! program to a fault or a race, and each keeps main's contract and a share-out of every state. Laws for it and for
//! later forms: `answers_decide_goals` (the goals of this form are decided), `right_answers_allow`, `events_follow`,
//! `tests_hold_throughout`, `quiet_steps_keep`, `nothing_is_shared`, `one_thread_has_no_race`,
//! `safe_runs_show_no_fault`, `one_unit_links`; examples: `seven_is_accepted`, `overflow_is_seen`,
//! `broken_promise_is_seen`.
#![tactic(auto)]

mod examples;
mod laws;
mod safety;

pub use examples::{broken_promise_is_seen, overflow_is_seen, seven_is_accepted};
pub use laws::{
    answers_decide_goals, events_follow, nothing_is_shared, one_thread_has_no_race, one_unit_links,
    quiet_steps_keep, right_answers_allow, safe_runs_show_no_fault, tests_hold_throughout,
};
pub use safety::accepted_is_safe;
