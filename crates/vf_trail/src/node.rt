//! Nodes of a trail.

/// A node of a trail, by its number: the root is 0, and the k-th fact pushed is at node k.
#[derive(Clone, Copy, Debug, PartialEq, Eq)]
pub struct Node {
    pub number: u32,
}

impl Node {
    /// The root, which holds nothing.
    pub const ROOT: Node = Node { number: 0 };
}
