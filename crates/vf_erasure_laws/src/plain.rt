//! What is left of a unit without its annotations is what the tokens of real text spell.
//!
//! A C compiler sees no annotation. Here stand the laws that a unit with its annotations left out is spelled by the
//! tokens of real text, by the grammar without annotations and no deeper, so that the parser of real text reads it
//! wherever the parser of the whole language reads the unit.
//!
//! In `specs/`: what is left of a unit without its annotations. Laws: where tokens spell a unit, those of real text
//! spell it without its annotations, by the grammar without annotations and within the same nesting
//! (`wholes_are_plain`); so where tokens are read as items, those of real text are read as the same without their
//! annotations (`plain_readings_are_stripped`), and where `parse` answers with a unit, `parse_plain` answers with the
//! items of that unit without its annotations, unless memory ran out (`plain_answers_are_stripped`); a unit that is
//! spelled without annotations is the same without them (`plain_units_stay`).

pub mod laws;
