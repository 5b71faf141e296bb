//! Runs in which the threads take turns.
//!
//! [`turns`] takes events from a machine's state on: thread after thread takes up to a number of
//! events, the threads going round, until so many events are taken or no thread can step. The events
//! that were taken are logged, so that the run can be repeated.
//!
//! `turns`: the events that are taken are those of the definition of turns of a quantum, and the log has just these,
//! after a refusal too.

mod event;
mod turning;

pub use turning::turns;
