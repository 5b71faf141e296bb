//! Which nodes reach themselves.

ghost use Rattle.std.specs.Prelude.{◌≡◌, ◌<◌, ◌⊎◌, ℕ, [], IfOk, OnOk, Contains, length, reverse};
ghost use Rattle.vf_cycles.specs.Reaching.{Reaches};
ghost use Rattle.vf_cycles.specs.Graphs.{Edge, AreEdges, EachOnce, IsMarked, MarksCycles, HasNoCycle, IsOrder};
ghost use Rattle.vf_cycles.specs.Walks.{IsFinished, IsGraph, IsWalkOf, IsMarkedFrom};

use crate::graph::Graph;
use crate::walk::Walk;
use std::alloc::Global;
use vf_base::Memory;

/// The nodes of a graph in an order, and those that reach themselves.
#[derive(Drop)]
pub struct Cycles {
    /// All nodes; where no node reaches itself, each edge leads back in this order.
    pub order: Vec<usize>,
    /// For each node whether it reaches itself.
    pub marks: Vec<bool>,
}

/// The nodes in the order in which a walk in depth finishes them.
fn finishing_order(
    alloc: Global,
    count: usize,
    sources: &[usize],
    targets: &[usize],
) -> Result<Vec<usize>, Memory>
    requires { AreEdges count sources.now targets.now }
    ensures { IfOk result (λ order. IsFinished count sources.now targets.now order.items) }
{
    let graph = Graph::new(alloc, count, sources, targets)?;
    let mut walk = Walk::new(alloc, count, &graph)?;
    for root in 0..count {
        walk.visit_unseen(root, &graph)?;
    }
    Ok(walk.finished)
}

/// Marks the nodes that have an edge to themselves.
fn mark_loops(
    alloc: Global,
    count: usize,
    sources: &[usize],
    targets: &[usize],
) -> Result<Vec<bool>, Memory>
    requires { AreEdges count sources.now targets.now }
    ensures nodes { IfOk result (λ m. length m.items ≡ count) }
    ensures marked { IfOk result (λ m. (u : ℕ) → IsMarked m.items u → Edge sources.now targets.now u u) }
    ensures each { IfOk result (λ m. (u : ℕ) → Edge sources.now targets.now u u → IsMarked m.items u) }
{
    let mut marks = vec![in alloc; false; count]?;
    for edge in 0..sources.len() {
        if sources[edge] == targets[edge] {
            marks[sources[edge]] = true;
        }
    }
    Ok(marks)
}

/// Marks each of these nodes.
fn mark_all(marks: &mut Vec<bool>, nodes: &[usize])
    requires { (u : ℕ) → Contains nodes.now u → u < length marks.old.items }
    ensures nodes { length marks.new.items ≡ length marks.old.items }
    ensures marked { (u : ℕ) → IsMarked marks.new.items u → IsMarked marks.old.items u ⊎ Contains nodes.now u }
    ensures kept { (u : ℕ) → IsMarked marks.old.items u → IsMarked marks.new.items u }
    ensures each { (u : ℕ) → Contains nodes.now u → IsMarked marks.new.items u }
{
    for node in nodes {
        marks[*node] = true;
    }
}

/// Walks from a node, unless it was seen, and marks the nodes that are seen then, if there is more than one.
fn mark_from(
    marks: &mut Vec<bool>,
    walk: &mut Walk,
    root: usize,
    graph: &Graph,
) -> Result<(), Memory>
    requires graph { IsGraph (length walk.old.seen.items) graph.now }
    requires walk { IsWalkOf graph.now [] walk.old }
    requires opened { walk.old.opened.items ≡ [] }
    requires within { root < length walk.old.seen.items }
    requires marks { length marks.old.items ≡ length walk.old.seen.items }
    ensures walk { OnOk result (IsWalkOf graph.now [] walk.new) }
    ensures opened { OnOk result (walk.new.opened.items ≡ []) }
    ensures nodes { OnOk result (length walk.new.seen.items ≡ length walk.old.seen.items) }
    ensures marked { OnOk result (IsMarkedFrom graph.now.sources.items graph.now.targets.items root
        walk.old.finished.items walk.new.finished.items marks.old.items marks.new.items) }
{
    if walk.seen[root] {
        return Ok(());
    }
    let start = walk.finished.len();
    walk.visit(root, graph)?;
    if start + 1 < walk.finished.len() {
        mark_all(marks, &walk.finished.as_slice()[start..]);
    }
    Ok(())
}

/// Marks the nodes that reach themselves, by the order in which a walk in depth finishes all nodes.
fn mark_cycles(
    alloc: Global,
    count: usize,
    sources: &[usize],
    targets: &[usize],
    order: &[usize],
) -> Result<Vec<bool>, Memory>
    requires edges { AreEdges count sources.now targets.now }
    requires order { IsFinished count sources.now targets.now order.now }
    ensures { IfOk result (λ m. MarksCycles count sources.now targets.now m.items) }
{
    let mut marks = mark_loops(alloc, count, sources, targets)?;
    let graph = Graph::new(alloc, count, targets, sources)?;
    let mut walk = Walk::new(alloc, count, &graph)?;
    let mut at = order.len();
    while at > 0 {
        at -= 1;
        mark_from(&mut marks, &mut walk, order[at], &graph)?;
    }
    Ok(marks)
}

/// Which nodes reach themselves in the graph with so many nodes and these edges, and an order of its nodes.
pub fn find_cycles(
    alloc: Global,
    count: usize,
    sources: &[usize],
    targets: &[usize],
) -> Result<Cycles, Memory>
    requires { AreEdges count sources.now targets.now }
    ensures marks { IfOk result (λ c. MarksCycles count sources.now targets.now c.marks.items) }
    ensures order { IfOk result (λ c. HasNoCycle sources.now targets.now
        → IsOrder count sources.now targets.now c.order.items) }
{
    let order = finishing_order(alloc, count, sources, targets)?;
    let marks = mark_cycles(alloc, count, sources, targets, order.as_slice())?;
    Ok(Cycles { order, marks })
}
