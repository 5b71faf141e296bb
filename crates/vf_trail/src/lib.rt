//! A tree of facts that only grows.
//!
//! Contracts see a [`Trail`] as the list of its facts, each with the number of the node that it hangs
//! on, and the room that is left. The facts above a node never change: no call but a push writes, and
//! a push appends one fact and leaves every path as it was.
//!
//! Laws: `paths_stay`, `paths_step`.
#![tactic(auto)]

mod node;
mod trail;

pub use node::Node;
pub use trail::{MOST_FACTS, Trail, TrailFault, paths_stay, paths_step};
