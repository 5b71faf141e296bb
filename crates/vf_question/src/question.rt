//! Questions over a table of terms.

use vf_refute::Fact;
use vf_table::Node;

/// A table of terms, and facts over it.
#[derive(Debug, Drop)]
pub struct Question {
    pub nodes: Vec<Node>,
    pub facts: Vec<Fact>,
}
