//! More laws of the rules: sorts and ranges through whole bodies, and switches in programs of several units.
//!
//! The definitions stand in `specs/`; the code here is public functions with an empty body, each of
//! which has a law as its contract.
//!
//! In `specs/`: the types of C that expressions, steps and functions have (`Typing`); what is left to be asked where
//! states are typed (`Asked`); from which states the rules lead to which (`Leading`), and the states of a derivation
//! (`Derivations`); terms that are of a sort (`SortedTerms`); branches that have each constructor (`Covering`). Laws of
//! types, over `IsTypedState` of `vf_rules`: `bodies_begin_typed`, `preconditions_are_typed`, `steps_keep_types` (core
//! steps), `calls_keep_types`, `ghost_steps_keep_types`, `ghost_outcomes_are_typed`, `loop_heads_are_typed`, and all of
//! them in one: `accepted_bodies_are_typed` (an accepted body has a derivation whose every state is typed); what need
//! not be asked: `typed_expressions_evaluate`, `quotients_are_in_range`, `steps_meet_types`, `sorted_terms_have_sorts`.
//! Laws of several units: `each_constructor_covers`, `linking_adds_no_constructor`, `switches_cover_where_linked`. Of
//! rows: `valued_rows_show_lengths`. Examples: `half_is_typed`, `options_are_covered`, `valued_row_is_seen`.
#![tactic(auto)]

mod covering_laws;
mod examples;
mod row_laws;
mod typed_laws;

pub use covering_laws::{
    each_constructor_covers, linking_adds_no_constructor, switches_cover_where_linked,
};
pub use examples::{half_is_typed, options_are_covered, valued_row_is_seen};
pub use row_laws::valued_rows_show_lengths;
pub use typed_laws::{
    accepted_bodies_are_typed, bodies_begin_typed, calls_keep_types, ghost_outcomes_are_typed,
    ghost_steps_keep_types, loop_heads_are_typed, preconditions_are_typed, quotients_are_in_range,
    sorted_terms_have_sorts, steps_keep_types, steps_meet_types, typed_expressions_evaluate,
};
