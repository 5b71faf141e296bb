//! The journal of questions over terms, and the trait of those who answer them.
//!
//! A [`Journal`] keeps the definitions of each unit that was begun, and every question with its answer
//! and the facts that it was asked under; an [`Asker`] does exactly what its contract says to one. Rules
//! are courses of questions (`specs/Course.antt`), and `holds` and `note` follow them. What a right answer
//! is stands in `specs/Right.antt`.
//!
//! `holds` and `note` follow the course of one question and one fact; `can_be_fact` and `can_be_asked` tell which
//! literals may be pushed and asked; laws: `courses_only_append`, `courses_are_determined`,
//! `right_courses_are_determined`.
#![tactic(auto)]

mod answers;
mod ask;
mod asker;
mod journal;
mod laws;
mod plain;

pub use answers::Answer;
pub use ask::{holds, note};
pub use asker::{AskFault, Asker};
pub use journal::{DefinitionsList, Entry, EntryList, Journal};
pub use laws::{courses_are_determined, courses_only_append, right_courses_are_determined};
pub use plain::{can_be_asked, can_be_fact};
