//! Bounds on differences of integer terms, with the least that follows from them.
//!
//! A bound `x - y <= c` is an edge of a graph. A matrix keeps the least weight of a path between each
//! two points, and is brought up to date with each edge. What an edge changes in it is kept aside, so
//! that edges and points can be taken back, the last first.
//!
//! `bound` is the least sum of a chain of bounds, `conflict` holds exactly where a chain leads back below 0; `grow`
//! adds a point without bounds, and `undo` leaves exactly the first steps, points and bounds in the order in which
//! they came, and takes no memory; `shortened` tells which distances the last step shortened: others are as they were
//! before it.
#![tactic(auto)]

mod bounds;
mod journal;
mod matrix;

pub use bounds::{Bounds, Edge, MOST_POINTS, Step, is_small};
pub use journal::Saved;
