//! Walks in depth.

ghost use Rattle.std.specs.Prelude.{◌≡◌, ◌<◌, ◌+◌, ◌++◌, [], ◌∷◌, ℕ, List, IfOk, OnOk, true, length, slice_set, Contains};
ghost use Rattle.vf_cycles.specs.Graphs.{IsMarked};
ghost use Rattle.vf_cycles.specs.Walks.{IsGraph, IsWalkOf, IsReached, work};

use crate::graph::Graph;
use std::alloc::Global;
use vf_base::Memory;

/// A walk in depth: the nodes that are open, on the way to where it stands, those that are finished, those that were
/// seen, and what is left of the chain of each node's edges.
#[derive(Drop)]
pub struct Walk {
    pub opened: Vec<usize>,
    pub finished: Vec<usize>,
    pub seen: Vec<bool>,
    pub left: Vec<usize>,
}

impl Walk {
    /// A walk through a graph that has seen no node.
    pub fn new(alloc: Global, count: usize, graph: &Graph) -> Result<Walk, Memory>
        requires { IsGraph count graph.now }
        ensures walk { IfOk result (λ w. IsWalkOf graph.now [] w) }
        ensures opened { IfOk result (λ w. w.opened.items ≡ []) }
        ensures finished { IfOk result (λ w. w.finished.items ≡ []) }
        ensures seen { IfOk result (λ w. length w.seen.items ≡ count) }
    {
        let seen = vec![in alloc; false; count]?;
        let left = Vec::from_slice(alloc, graph.last.as_slice())?;
        Ok(Walk {
            opened: Vec::new(alloc),
            finished: Vec::new(alloc),
            seen,
            left,
        })
    }

    /// Opens a node that was not seen yet.
    fn open_node(&mut self, node: usize) -> Result<(), Memory>
        requires { node < length self.old.seen.items }
        ensures opened { OnOk result (self.new.opened.items ≡ self.old.opened.items ++ node ∷ []) }
        ensures seen { OnOk result (self.new.seen.items ≡ slice_set self.old.seen.items node true) }
        ensures finished { OnOk result (self.new.finished.items ≡ self.old.finished.items) }
        ensures left { OnOk result (self.new.left.items ≡ self.old.left.items) }
    {
        self.seen[node] = true;
        self.opened.push(node)?;
        Ok(())
    }

    /// Follows the last edge that is left of a node, the innermost that is open, or finishes it where none is left.
    fn step(&mut self, node: usize, graph: &Graph) -> Result<(), Memory>
        requires graph { IsGraph (length self.old.seen.items) graph.now }
        requires walk { IsWalkOf graph.now (self.old.opened.items ++ node ∷ []) self.old }
        ensures walk { OnOk result (IsWalkOf graph.now self.new.opened.items self.new) }
        ensures nodes { OnOk result (length self.new.seen.items ≡ length self.old.seen.items) }
        ensures less { OnOk result (work self.new.opened.items self.new.left.items
            < work self.old.opened.items self.old.left.items + 1) }
        ensures reached { OnOk result ((root : ℕ) (base : List ℕ)
            → IsReached graph.now.sources.items graph.now.targets.items root base
            (self.old.opened.items ++ node ∷ []) self.old.finished.items
            → IsReached graph.now.sources.items graph.now.targets.items root base
            self.new.opened.items self.new.finished.items) }
    {
        let edge = self.left[node];
        if edge == 0 {
            self.finished.push(node)?;
            return Ok(());
        }
        self.opened.push(node)?;
        self.left[node] = graph.before[edge - 1];
        let target = graph.targets[edge - 1];
        if !self.seen[target] {
            self.open_node(target)?;
        }
        Ok(())
    }

    /// Walks from a node that was not seen to all nodes that it reaches and that were not seen, and finishes them.
    pub fn visit(&mut self, root: usize, graph: &Graph) -> Result<(), Memory>
        requires graph { IsGraph (length self.old.seen.items) graph.now }
        requires walk { IsWalkOf graph.now [] self.old }
        requires opened { self.old.opened.items ≡ [] }
        requires within { root < length self.old.seen.items }
        requires unseen { IsMarked self.old.seen.items root → ⊥ }
        ensures walk { OnOk result (IsWalkOf graph.now [] self.new) }
        ensures opened { OnOk result (self.new.opened.items ≡ []) }
        ensures nodes { OnOk result (length self.new.seen.items ≡ length self.old.seen.items) }
        ensures reached { OnOk result (IsReached graph.now.sources.items graph.now.targets.items root
            self.old.finished.items [] self.new.finished.items) }
    {
        self.open_node(root)?;
        while let Some(node) = self.opened.pop() {
            self.step(node, graph)?;
        }
        Ok(())
    }

    /// The same from a node that may have been seen; then there is nothing to do.
    pub fn visit_unseen(&mut self, root: usize, graph: &Graph) -> Result<(), Memory>
        requires graph { IsGraph (length self.old.seen.items) graph.now }
        requires walk { IsWalkOf graph.now [] self.old }
        requires opened { self.old.opened.items ≡ [] }
        requires within { root < length self.old.seen.items }
        ensures walk { OnOk result (IsWalkOf graph.now [] self.new) }
        ensures opened { OnOk result (self.new.opened.items ≡ []) }
        ensures nodes { OnOk result (length self.new.seen.items ≡ length self.old.seen.items) }
        ensures kept { OnOk result ((u : ℕ) → Contains self.old.finished.items u → Contains self.new.finished.items u) }
        ensures finished { OnOk result (Contains self.new.finished.items root) }
    {
        if !self.seen[root] {
            self.visit(root, graph)?;
        }
        Ok(())
    }
}
