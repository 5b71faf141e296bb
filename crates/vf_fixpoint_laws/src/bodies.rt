//! The fixpoints of a unit keep sorts.
//!
//! The definitions stand in `specs/`; the code here is public functions with an empty body, each of
//! which has a law as its contract.
//!
//! In `specs/`: what is needed of declarations, of bodies and of their order, where a body is read with the names up
//! to its fixpoint's and values are told by the whole unit; when a body keeps sorts at arguments; and which terms
//! apply fixpoints with results of integers as such. Laws: `passing_resolves` and `passing_settles` (what is known
//! behind an expression stays resolved, so the sorts that are settled agree with it), `bodies_give_sorts` (a body
//! that returns, or that switches, has a value of its sort where the fixpoints that it applies keep sorts there),
//! `bodies_keep_sorts` (by induction on the order of fixpoints and the size of what a body switches over),
//! `units_keep_sorts` (of the fixpoints that items declare, by their definitions), `numbers_keep_values`,
//! `numbers_meet_definitions`, `readings_are_kinded`, `definitions_are_kinded` and `defined_keep_sorts` (definitions
//! tell only the number of a fixpoint with a result of integers; where it is taken as a number, terms have the same
//! values and fixpoints keep sorts), `values_follow_sorting` (expressions have values of their sorts in each
//! interpretation that meets the definitions, also where less is declared than in the unit), `fronts_are_covered` and
//! `later_predicates_stay` (the unit covers what is declared up to a name, but for predicates that stand later), and
//! `lists_are_defined`, an example of a unit that meets what is asked of units. It is of bodies that return and that
//! switch, with recursion on components. That cases are complete, that applications go down, how the text and the
//! declarations agree, and that the unit covers what is declared up to each fixpoint are premises, which
//! `vf_fixpoint_laws::descending` and `vf_fixpoint_laws::well_declared` derive for accepted units, and
//! `vf_fixpoint_laws::accepted` brings together.

mod laws;

pub use laws::{
    bodies_give_sorts, bodies_keep_sorts, defined_keep_sorts, definitions_are_kinded,
    equating_resolves, fronts_are_covered, later_predicates_stay, lists_are_defined,
    numbers_keep_sorts, numbers_keep_values, numbers_meet_definitions, passing_resolves,
    passing_settles, readings_are_kinded, sorts_are_placed_alike, units_keep_sorts,
    values_follow_sorting,
};
