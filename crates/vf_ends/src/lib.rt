//! Whether a run is done: main has returned and all other threads have ended.
//!
//! `settled` tells it.
#![tactic(auto)]

mod ends;

pub use ends::settled;
