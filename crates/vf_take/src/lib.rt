//! Taking chunks out of heaps, by questions to whoever answers.
//!
//! The courses stand in `specs/`: which questions are asked, in which order, and what comes of each answer. `take` takes
//! a share of the oldest chunk that fits what is wanted, alone or with younger chunks of its location that are merged
//! with it; `read` gives the content of a cell. Each comes to what its course comes to with just the answers that its
//! asker gave, and every literal that is asked or hung on a node is between terms that can be compared. Laws:
//! `takes_are_determined`, `reads_are_determined` (right answers lead to one result); examples: `takes_in_examples`.
#![tactic(auto)]

mod contents;
mod find;
mod fits;
mod gather;
mod laws;
mod merge;
mod takes;
mod wanted;

pub use contents::read;
pub use fits::{known_at, refused};
pub use laws::{reads_are_determined, takes_are_determined, takes_in_examples};
pub use takes::take;
pub use wanted::{Pattern, PatternList, Places, SharePattern, Taken, Wanted};
