//! How many of the nodes of a body are kept, between any two of them.

ghost use Rattle.std.specs.Prelude.{◌≡◌, List, ◌≤◌, length, take, drop, IfOk};
ghost use Rattle.vf_steps.specs.Shown.{action_of, nodes_of};
ghost use Rattle.vf_steps.specs.Tree.{NodeTree};
ghost use Rattle.vf_functions.specs.Erased.{count_kept, gone_back, is_kept, skipped};
ghost use Rattle.vf_erase.specs.Counting.{counts_of};

use std::alloc::Global;
use vf_base::{Memory, Sequence};
use vf_steps::{Action, Node};

/// Whether a node that does something is kept.
fn is_kept(action: &Action<'_>) -> bool
    ensures { result ≡ is_kept (action_of action.now) }
{
    match action {
        Action::Unset(_) | Action::Ghost(_) | Action::Loop { .. } | Action::Exit => false,
        _ => true,
    }
}

/// How many of the nodes in front of each node are kept, and how many of all.
pub fn count_nodes(alloc: Global, nodes: &Vec<Node<'_>>) -> Result<Sequence<usize>, Memory>
    ensures { IfOk result (λ counts. counts ≡ counts_of (nodes_of nodes.now.items)) }
{
    let mut counts = Sequence::new(alloc);
    let mut count = 0;
    for at in 0..nodes.len() {
        counts.push(count)?;
        if is_kept(&nodes[at].action) {
            count += 1;
        }
    }
    counts.push(count)?;
    Ok(counts)
}

/// How many of the nodes in front of an index are kept, by such counts.
fn kept_before(counts: &Sequence<usize>, at: usize) -> usize
    ensures { (ns : List NodeTree) → counts.now ≡ counts_of ns → at ≤ length ns → result ≡ count_kept (take at ns) }
{
    match counts.get(at) {
        Some(count) => *count,
        None => 0,
    }
}

/// How many nodes are skipped where so many of the nodes from an index on were.
pub fn skipped(counts: &Sequence<usize>, first: usize, by: usize) -> usize
    ensures { (ns : List NodeTree) → counts.now ≡ counts_of ns → first ≤ length ns → result ≡ skipped by (drop first ns) }
{
    let length = counts.len().saturating_sub(1);
    let end = if by < length.saturating_sub(first) {
        first + by
    } else {
        length
    };
    kept_before(counts, end).saturating_sub(kept_before(counts, first))
}

/// Over how many nodes the way back goes where it went over so many of the nodes in front of an index.
pub fn gone_back(counts: &Sequence<usize>, at: usize, by: usize) -> usize
    ensures { (ns : List NodeTree) → counts.now ≡ counts_of ns → at ≤ length ns → result ≡ gone_back by (take at ns) }
{
    let first = at.saturating_sub(by);
    kept_before(counts, at).saturating_sub(kept_before(counts, first))
}
