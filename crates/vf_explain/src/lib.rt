//! Steps that derive what tables of bounds answer.
//!
//! A table of bounds tells what follows from the bounds that were added to it. Here a log is given the steps that
//! derive it, from steps that derive what was added.
//!
//! `why_bound` derives the least bound between two points in a log, and answers nothing exactly where no chain bounds
//! them; `why_conflict` derives a point to be below itself, exactly where a chain leads back below 0.
#![tactic(auto)]

mod bound;
mod checking;
mod conflict;

pub use bound::why_bound;
pub use checking::are_reasons;
pub use conflict::why_conflict;
