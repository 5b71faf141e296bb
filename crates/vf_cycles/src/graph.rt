//! The edges of a graph, chained by the nodes where they begin.

ghost use Rattle.std.specs.Prelude.{◌≡◌, IfOk};
ghost use Rattle.vf_cycles.specs.Graphs.{AreEdges};
ghost use Rattle.vf_cycles.specs.Walks.{IsGraph};

use std::alloc::Global;
use vf_base::Memory;

/// The edges of a graph, by where they begin and end. For each node its last edge is known, and for each edge the one
/// before it from the same node: edges count from 1 there, and 0 is none.
#[derive(Drop)]
pub struct Graph {
    pub sources: Vec<usize>,
    pub targets: Vec<usize>,
    pub last: Vec<usize>,
    pub before: Vec<usize>,
}

impl Graph {
    /// The graph with so many nodes and these edges.
    pub fn new(
        alloc: Global,
        count: usize,
        sources: &[usize],
        targets: &[usize],
    ) -> Result<Graph, Memory>
        requires { AreEdges count sources.now targets.now }
        ensures graph { IfOk result (λ g. IsGraph count g) }
        ensures sources { IfOk result (λ g. g.sources.items ≡ sources.now) }
        ensures targets { IfOk result (λ g. g.targets.items ≡ targets.now) }
    {
        let mut last = vec![in alloc; 0usize; count]?;
        let mut before = Vec::with_capacity(alloc, sources.len())?;
        for edge in 0..sources.len() {
            let source = sources[edge];
            before.push(last[source])?;
            last[source] = edge + 1;
        }
        let sources = Vec::from_slice(alloc, sources)?;
        let targets = Vec::from_slice(alloc, targets)?;
        Ok(Graph {
            sources,
            targets,
            last,
            before,
        })
    }
}
