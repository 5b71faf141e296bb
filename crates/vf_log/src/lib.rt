//! Logs of steps.
//!
//! A log begins with a question and is given steps one by one. Each derives something from the
//! question and from earlier steps, and so a log that derives what cannot be ends in a refutation.
//!
//! Each call adds one step, which derives what its rule says; with a last step that names a conflict a log is a
//! refutation.
#![tactic(auto)]

mod copying;
mod log;

pub use copying::copy_table;
pub use log::Log;
