//! Whatever spells a unit with its annotations is read as that unit.
//!
//! The parsers of annotations read all that is spelled, as the laws of units want it. So the parser of the whole
//! language refuses no spelled unit within the nesting that is allowed, and tokens spell one unit at most.
//!
//! Laws: the parsers of annotations meet all that is owed of them (`annotations_are_read`), so a unit that tokens
//! spell is read from them (`units_are_read`), tokens spell the items of one unit at most (`units_have_one_reading`),
//! and an answer of `parse` is the items that all tokens spell within 128 levels, where there are such
//! (`spelled_units_are_answered`), with the same of `parse_plain` (`plain_units_are_answered`).

pub mod laws;
