//! Whatever spells a statement or a body is read as that.
//!
//! The parsers of annotations are given from outside, so the laws say what is owed of them.
//!
//! Laws: what tokens spell within the nesting that is allowed is read from them (`statements_are_read`,
//! `lists_are_read`, `bodies_are_read`); without annotations tokens spell one body at most
//! (`plain_bodies_have_one_reading`).

pub mod laws;
