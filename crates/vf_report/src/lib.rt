//! What is printed, how a call of the tool ends, and the reading of the files that are no source files.
//!
//! Each `push_` call adds to a text just the line that `specs/Lines` has for what is told. `load_schedule` and
//! `load_manifest` read a schedule and a manifest from files: what the file's bytes stand for, or why there is nothing, each cause
//! with its fact. [`Status`] is how a call ends, and its number.
#![tactic(auto)]

mod lines;
mod load;
mod runs;
mod status;

pub use lines::{
    push_accepted, push_linked, push_read, push_refusal, push_unlinked, push_upgraded,
};
pub use load::{load_manifest, load_schedule};
pub use runs::{push_capacity, push_finding, push_outcome, push_output};
pub use status::{Answered, Status, Stop};
