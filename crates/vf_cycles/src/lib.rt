//! Graphs: which nodes reach themselves, and an order in which each edge leads back.
//!
//! A graph has the numbers below a count as nodes. Its edges stand in two slices: where each begins, and where it ends.
//! [`find_cycles`] marks the nodes that reach themselves, and gives an order of all nodes; where no node reaches itself each
//! edge leads back in it. It takes time in proportion to nodes and edges, and keeps its way in memory, not on the stack.
//!
//! A walk in depth gives the order in which nodes are finished. In a second walk, along the edges backwards and from the
//! nodes finished last, what is reached from a root is the set of those that reach each other.
#![tactic(auto)]

mod cycles;
mod graph;
mod walk;

pub use cycles::{Cycles, find_cycles};
