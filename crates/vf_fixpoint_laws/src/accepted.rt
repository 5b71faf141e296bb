//! The fixpoints of an accepted unit keep sorts, and values follow the sorting of expressions over it.
//!
//! The definitions stand in `specs/`; the code here is public functions with an empty body, each of
//! which has a law as its contract.
//!
//! In `specs/`: when a unit is accepted with an interpretation that gives the definitions of its items the values of
//! their bodies; and two small units. Laws: `accepted_units_define` (such a unit, whose names have no `#`, meets all
//! that `vf_fixpoint_laws::bodies` asks of units), and so `accepted_fixpoints_keep_sorts` (its fixpoints keep sorts,
//! where those with results of integers give numbers) and `accepted_values_follow_sorting` (an expression that has a
//! sort, or passes for one, has a value of it where the unit covers what is declared); `read_fixpoints_keep_sorts`
//! and `read_values_follow_sorting` (the same of a unit that is read from a file and accepted, of whose names nothing
//! is asked); examples: `rests_are_lists` (over an accepted unit of lists `rest(xs)` has a list as its value wherever
//! `xs` has one, and `length(rest(xs))` a number), `parameters_are_met` (of an accepted unit with a fixpoint whose
//! result is of a type parameter), and law `integers_are_met` (where a fixpoint has the values of its body, its
//! definition for integers has those of the body taken as numbers). That the terms that stand in a setting have
//! values of their sorts is a premise, and so is that names have no `#` where a unit is not known to be read from a
//! text.

mod laws;

pub use laws::{
    accepted_fixpoints_keep_sorts, accepted_units_define, accepted_values_follow_sorting,
    integers_are_met, parameters_are_met, read_fixpoints_keep_sorts, read_values_follow_sorting,
    rests_are_lists,
};
