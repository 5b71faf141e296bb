//! Files, each read once: what a path held when it was first asked for is what it holds from then on.
//!
//! What is held of a path never changes (`grows`), a path that is held is not read again, nothing is kept at a read
//! fault, each fault has its cause; `normal_path`.
#![tactic(auto)]

mod held;
mod path;
mod snapshot;

pub use held::{Held, SnapFault};
pub use path::{normal_path, normal_path_of_bytes};
pub use snapshot::Snapshot;
