//! The nodes of a body without its annotations.

ghost use Rattle.std.specs.Prelude.{◌≡◌, List, ◌<◌, ◌≤◌, ◌+◌, ◌++◌, length, take, drop, slice_get, Some, IfOk, OnOk};
ghost use Rattle.std.specs.Option.{option_map};
ghost use Rattle.vf_steps.specs.Shown.{action_of, node_of, nodes_of};
ghost use Rattle.vf_steps.specs.Tree.{NodeTree};
ghost use Rattle.vf_functions.specs.Erased.{erased, erased_node, kept_action};
ghost use Rattle.vf_erase.specs.Counting.{counts_of};

use crate::counts::{count_nodes, gone_back, skipped};
use std::alloc::Global;
use vf_base::{Memory, Sequence};
use vf_steps::{Action, Node};

/// What a node does between those in front of an index and those from the next on, if it is kept.
fn kept_action<'a>(
    counts: &Sequence<usize>,
    at: usize,
    next: usize,
    action: Action<'a>,
) -> Option<Action<'a>>
    ensures { (ns : List NodeTree) → counts.now ≡ counts_of ns → at ≤ length ns → next ≤ length ns → option_map action_of result ≡ kept_action (take at ns) (action_of action.entry) (drop next ns) }
{
    match action {
        Action::Unset(_) | Action::Ghost(_) | Action::Loop { .. } | Action::Exit => None,
        Action::If {
            comparison,
            left,
            right,
            so,
            otherwise,
        } => Some(Action::If {
            comparison,
            left,
            right,
            so: skipped(counts, next, so),
            otherwise: skipped(counts, next, otherwise),
        }),
        Action::Jump(by) => Some(Action::Jump(skipped(counts, next, by))),
        Action::Back(by) => Some(Action::Back(gone_back(counts, at, by))),
        other => Some(other),
    }
}

/// Adds a node that stands between those in front of an index and those from the next on, if it is kept.
fn add_kept<'a>(
    kept: &mut Vec<Node<'a>>,
    counts: &Sequence<usize>,
    at: usize,
    next: usize,
    node: Node<'a>,
) -> Result<(), Memory>
    ensures { OnOk result ((ns : List NodeTree) → counts.now ≡ counts_of ns → at ≤ length ns → next ≤ length ns → nodes_of kept.new.items ≡ nodes_of kept.old.items ++ erased_node (take at ns) (node_of node.entry) (drop next ns)) }
{
    let Node { statement, action } = node;
    if let Some(action) = kept_action(counts, at, next, action) {
        kept.push(Node { statement, action })?;
    }
    Ok(())
}

/// Takes the node at an index out of others; those behind it stay.
fn take_node<'a>(nodes: &mut Vec<Node<'a>>, at: usize) -> Node<'a>
    requires { at < length nodes.old.items }
    ensures given { slice_get nodes.old.items at ≡ Some result }
    ensures length { length nodes.new.items ≡ length nodes.old.items }
    ensures behind { drop (at + 1) nodes.new.items ≡ drop (at + 1) nodes.old.items }
{
    let nothing = Node {
        statement: nodes[at].statement,
        action: Action::Exit,
    };
    std::mem::replace(&mut nodes[at], nothing)
}

/// The nodes of a body that are left without its annotations.
pub fn erase_nodes<'a>(alloc: Global, nodes: Vec<Node<'a>>) -> Result<Vec<Node<'a>>, Memory>
    ensures { IfOk result (λ kept. nodes_of kept.items ≡ erased (nodes_of nodes.entry.items)) }
{
    let counts = count_nodes(alloc, &nodes)?;
    let mut left = nodes;
    let mut kept = Vec::new(alloc);
    for at in 0..left.len() {
        let node = take_node(&mut left, at);
        add_kept(&mut kept, &counts, at, at + 1, node)?;
    }
    Ok(kept)
}
