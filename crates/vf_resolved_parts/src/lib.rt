//! The parts of assertions, resolved.
//!
//! A part that was sorted is read once more, with what is known of unknown sorts in the end: expressions come to terms,
//! and of a truth value the connectives, comparisons and choices stay apart; names that patterns and shares bind get
//! the numbers behind those of the names in front of the part; and it is decided what a chunk or a cell is of.
//!
//! In `specs/`: each of these as a function of the tree, of what stands around it (a `vf_terms` setting) and of the
//! number of names in front of the part; unknown sorts are numbered as where the part is sorted. `truth`,
//! `pattern_read`, `patterns_read`, `share_read`, `chunk_read`, `cell_read` and the others are what their definitions
//! say, and refuse nothing; want of memory alone is free. What sorting refuses is read as the number 0.
#![tactic(auto)]

mod comparing;
pub mod heads;
pub mod names;
pub mod parts;
pub mod patterns;
mod progress;
pub mod shares;
mod truth_reading;
mod truths;

pub use progress::Progress;
pub use truth_reading::{Side, TruthReading};
pub use truths::truth;
