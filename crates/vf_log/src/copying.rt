//! Copies of tables.

ghost use Rattle.std.specs.Prelude.{IfOk};
ghost use Rattle.vf_log.specs.Copies.{IsCopy, HaveSameTerms};

use std::alloc::Global;
use vf_base::Memory;
use vf_table::Node;

/// A copy of a node.
fn copy_node(alloc: Global, node: &Node) -> Result<Node, Memory>
    ensures { IfOk result (IsCopy node.now) }
{
    Ok(Node {
        head: node.head,
        parts: Vec::from_slice(alloc, &node.parts)?,
    })
}

/// A copy of a table.
pub fn copy_table(alloc: Global, nodes: &[Node]) -> Result<Vec<Node>, Memory>
    ensures { IfOk result (λ v. HaveSameTerms nodes.now v.items) }
{
    let mut out = Vec::new(alloc);
    for node in nodes {
        out.push(copy_node(alloc, node)?)?;
    }
    Ok(out)
}
