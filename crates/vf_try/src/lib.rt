//! The commands `try` and `trace`: files are read, linked and run, and nothing is checked of their annotations.
//!
//! [`try_answer`] reads a schedule and source files, links what these promise and need of each other, makes one program of their
//! plain readings and runs it under the schedule ([`Purpose::Run`]), or searches that run for its first fault or race
//! ([`Purpose::Trace`]). What it answers is the text to be printed, with the status: the files' lines, the link line by the
//! definition of linking, and the machine's run or what is found in it. Each stop has its cause.
#![tactic(auto)]

mod answer;
mod files;
mod program;
mod purpose;
mod units;

pub use answer::try_answer;
pub use purpose::Purpose;
