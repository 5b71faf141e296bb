//! Checking one recorded run for faults and races.
//!
//! [`trace`] follows a list of events from a machine's state and stops at the first state in which
//! some thread's next step has a fault, or two threads race. In one state a fault comes before a race,
//! the least thread first, and of races the least pair in order.
//!
//! `trace` answers nothing up to the last state, or what it found, and how many events were taken before it.
#![tactic(auto)]

mod faults;
mod following;
mod races;
mod sight;
mod touching;

pub use following::{Finding, trace};
pub use sight::{Sight, look};
