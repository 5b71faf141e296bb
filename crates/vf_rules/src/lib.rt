//! The declarative rules of symbolic execution: what a state stands for, and when a body is accepted.
//!
//! The definitions stand in `specs/`, over those of the machine and of assertions; the code here is
//! public functions with an empty body, each of which has a law as its contract.
//!
//! In `specs/`: terms, symbolic states and what they stand for, producing and consuming every form of assertion (with a
//! row of int cells it is known at once that its length is not negative), taking, joining and renaming chunks, opening
//! and closing predicates, evaluating, loops with invariants, claims of function types, and when a body is accepted:
//! one rule for each core step, with arrays of int (`specs/Arrays`), and the prelude's calls that concern mutexes and
//! threads by their contracts (`specs/Mutexes`, `specs/Threads`); and rules for what annotations do between steps:
//! leaks, what a state shows, case splits, switches over values, opening and closing, calls of lemmas (`specs/Lemmas`),
//! coming to a loop's head. A function's own contract refines that of its prototype and that of each type which it
//! claims: with all of these ghost steps but leaks and loops (`specs/GhostSteps`) between its parts, the other
//! precondition is produced, the own one consumed, the own postcondition produced and the other one consumed. Premises
//! are semantic. Laws: `producing_adds`, `consuming_takes`, `joining_keeps`, `changes_keep`, `opening_keeps`,
//! `closing_keeps`, `entering_keeps`, `empty_cases_hold`; that sorts have values: `closed_sorts_have_values`; the sorts and
//! ranges of a state (`specs/Ranges`), which rules keep: `producing_keeps_types`, `consuming_keeps_types` and others;
//! annotations that need no rule of their own: `asserting_is_accepted`, `choosing_is_accepted`.
#![tactic(auto)]

mod ghost_laws;
mod laws;
mod loop_laws;
mod predicate_laws;
mod range_laws;
mod sort_laws;

pub use ghost_laws::{asserting_is_accepted, choosing_is_accepted};
pub use laws::{changes_keep, consuming_takes, joining_keeps, producing_adds};
pub use loop_laws::{empty_cases_hold, entering_keeps};
pub use predicate_laws::{closing_keeps, opening_keeps};
pub use range_laws::{
    allocating_keeps_types, changes_keep_types, consuming_keeps_types, facts_keep_types,
    loading_keeps_types, naming_keeps_types, producing_keeps_types, ranges_widen,
    setting_keeps_types, storing_keeps_types, taking_keeps_types,
};
pub use sort_laws::closed_sorts_have_values;
