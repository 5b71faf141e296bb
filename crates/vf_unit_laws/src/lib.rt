//! The fixpoints of an accepted unit stand in the order of their declaration, so right answers of it entail wherever it is linked.
//!
//! The definitions stand in `specs/`; the code here is public functions with an empty body, each of
//! which has a law as its contract.
//!
//! In `specs/`: the fixpoints that the environment of a unit has by the unit's definitions, whichever sorts they have.
//! Laws: `accepted_fixpoints_stand_in_order` (each application in the body of a fixpoint of an accepted unit is of an
//! earlier one, or of the same at a name of the case), `accepted_definitions_are_theirs` (the definitions of the unit are
//! those of these fixpoints), so `units_definitions_are_among` and `accepted_units_answers_entail` (in each linked
//! environment of the unit right answers entail), and `read_units_are_accepted` and `read_units_answers_entail` (the same
//! of a unit that is read from a file and passes its phases, of whose names nothing is asked); example:
//! `lengths_stand_in_order`.
#![tactic(auto)]

mod examples;
mod laws;

pub use examples::lengths_stand_in_order;
pub use laws::{
    accepted_definitions_are_theirs, accepted_fixpoints_stand_in_order,
    accepted_units_answers_entail, read_units_answers_entail, read_units_are_accepted,
    units_definitions_are_among,
};
