//! What is seen of a machine before it steps: the fault that a thread's next step has, and what the
//! step touches; so that runs can be searched for faults and races.
//!
//! `next_fault` is the fault of the definition, both ways; `next_touch` is its touched cell.
#![tactic(auto)]

mod faults;
mod touches;

pub use faults::next_fault;
pub use touches::{Touch, next_touch};
