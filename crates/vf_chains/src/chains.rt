//! Chains of links, by how their first terms were reached.

use crate::graph::Graph;
use crate::links::Link;
use crate::search::{Mark, mark_of};
use std::alloc::Global;
use vf_base::Memory;

/// The link by which a term was reached.
fn link_to(graph: &Graph, marks: &[Mark], term: u32) -> Option<Link> {
    let mark = mark_of(marks, term)?;
    graph.link(mark.place)
}

/// The links by which a term was reached, the last first, up to a term; none where they do not come to it.
pub(crate) fn chain(
    alloc: Global,
    graph: &Graph,
    marks: &[Mark],
    term: u32,
    until: u32,
) -> Result<Option<Vec<Link>>, Memory> {
    let mut links = Vec::new(alloc);
    let mut at = term;
    for _ in 0..marks.len() {
        let Some(link) = link_to(graph, marks, at) else {
            return Ok(None);
        };
        links.push(link)?;
        at = link.right;
        if at == until {
            return Ok(Some(links));
        }
    }
    Ok(None)
}

/// A term of the round that a chain of more links than there are terms goes, from the term at its end.
pub(crate) fn within_round(graph: &Graph, marks: &[Mark], end: u32) -> u32 {
    let mut at = end;
    for _ in 0..marks.len() {
        match link_to(graph, marks, at) {
            Some(link) => at = link.right,
            None => return at,
        }
    }
    at
}
