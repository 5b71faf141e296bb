//! The fixpoints of an accepted unit have values: an interpretation gives its definitions the values of their bodies.
//!
//! The definitions stand in `specs/`; the code here is public functions with an empty body, each of
//! which has a law as its contract.
//!
//! In `specs/`: an interpretation of definitions by recursion, over their order and over the sizes of values; when
//! definitions of one identity agree; and a fixpoint that gives one more than itself. Laws: `definitions_are_met`
//! (definitions whose applications go down in some order, and which agree where they are of one identity, have an
//! interpretation with any claims that gives them the values of their bodies), `accepted_definitions_agree` (the
//! definitions of an accepted unit agree), and so `accepted_units_are_met` and `accepted_units_are_met_in_sorts` (an
//! interpretation gives the definitions of an accepted unit the values of their bodies, and in it its fixpoints keep
//! sorts) and `read_units_are_met` (the same of a unit that is read from a file, of whose names nothing is asked);
//! example: `endless_is_not_met` (the order is needed).

mod laws;

pub use laws::{
    accepted_definitions_agree, accepted_units_are_met, accepted_units_are_met_in_sorts,
    definitions_are_met, endless_is_not_met, read_units_are_met,
};
