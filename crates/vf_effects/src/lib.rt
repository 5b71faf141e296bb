//! What happens when a thread's step is taken: each effect makes of a state what the machine's
//! definitions say, and for want of memory leaves it as it was.
//!
//! `apply`: the state after each effect is the one that the machine's definition says, for each grant; want of memory
//! leaves it as it was, and is never answered for an effect that makes no block, frame, thread or output.
#![tactic(auto)]

mod allocations;
mod calls;
mod effects;
mod mutexes;
mod output;
mod starts;

pub use effects::apply;
