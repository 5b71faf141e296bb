//! Whatever spells a unit is read as that unit.
//!
//! The parsers of annotations are given from outside, so the laws say what is owed of them; without
//! annotations nothing is owed.
//!
//! Laws: what tokens spell within the nesting that is allowed is read from them (`items_are_read`, `units_are_read`),
//! and of units without annotations so (`plain_units_are_read`, `plain_units_have_one_reading`); an answer of
//! `parse_plain` is the items that all tokens spell within 128 levels, where there are such
//! (`spelled_units_are_answered`).

pub mod laws;
