//! The least bounds of chains of links.

use crate::graph::Graph;
use crate::links::Link;
use std::alloc::Global;
use vf_base::Memory;

/// How a term was reached: above where it began, by the number, by this link first, at the end of so many.
#[derive(Clone, Copy, Debug)]
pub(crate) struct Mark {
    pub(crate) reached: bool,
    pub(crate) most: i128,
    pub(crate) place: u32,
    pub(crate) count: usize,
}

/// The marks of all terms, and the terms from which to go on.
#[derive(Drop)]
pub(crate) struct Search {
    pub(crate) marks: Vec<Mark>,
    queue: Vec<u32>,
}

/// Marks of so many terms, all reached by no link, or none.
fn marks(alloc: Global, count: usize, reached: bool) -> Result<Vec<Mark>, Memory> {
    let mut all = Vec::new(alloc);
    for _ in 0..count {
        all.push(Mark {
            reached,
            most: 0,
            place: 0,
            count: 0,
        })?;
    }
    Ok(all)
}

/// How a term was reached.
pub(crate) fn mark_of(marks: &[Mark], term: u32) -> Option<Mark> {
    let mark = marks.get(term as usize)?;
    if mark.reached { Some(*mark) } else { None }
}

/// Whether a number is better than how a term was reached.
fn is_better(marks: &[Mark], term: u32, most: i128) -> bool {
    match marks.get(term as usize) {
        Some(mark) => !mark.reached || most < mark.most,
        None => false,
    }
}

/// Goes on by a link from a term that was reached, and answers the first term of the link where more links led
/// there than there are terms.
fn relax(search: &mut Search, link: &Link, place: u32, from: Mark) -> Result<Option<u32>, Memory> {
    let Some(most) = from.most.checked_add(link.most) else {
        return Ok(None);
    };
    if !is_better(&search.marks, link.left, most) {
        return Ok(None);
    }
    let count = from.count.wrapping_add(1);
    let term = link.left as usize;
    if term < search.marks.len() {
        search.marks[term] = Mark {
            reached: true,
            most,
            place,
            count,
        };
    }
    search.queue.push(link.left)?;
    if count > search.marks.len() {
        return Ok(Some(link.left));
    }
    Ok(None)
}

/// Goes on from a term by each link of its row.
fn spread(graph: &Graph, search: &mut Search, term: u32) -> Result<Option<u32>, Memory> {
    let mut place = graph.first(term);
    for _ in 0..graph.links.len() {
        let Some(link) = graph.link(place) else {
            return Ok(None);
        };
        let Some(from) = mark_of(&search.marks, term) else {
            return Ok(None);
        };
        if let Some(end) = relax(search, &link, place, from)? {
            return Ok(Some(end));
        }
        place = graph.next(place);
    }
    Ok(None)
}

/// How often a search goes on at most.
fn limit(graph: &Graph) -> usize {
    let size = graph.terms().wrapping_add(graph.links.len());
    size.wrapping_mul(8).wrapping_add(64)
}

/// Goes on until nothing is better, and answers a term behind a chain of more links than there are terms, where
/// one comes.
fn run(graph: &Graph, search: &mut Search) -> Result<Option<u32>, Memory> {
    for at in 0..limit(graph) {
        let term = match search.queue.get(at) {
            Some(term) => *term,
            None => return Ok(None),
        };
        if let Some(end) = spread(graph, search, term)? {
            return Ok(Some(end));
        }
    }
    Ok(None)
}

/// The least bounds over one term.
pub(crate) fn from_one(alloc: Global, graph: &Graph, source: u32) -> Result<Search, Memory> {
    let mut search = Search {
        marks: marks(alloc, graph.terms(), false)?,
        queue: Vec::new(alloc),
    };
    let term = source as usize;
    if term < search.marks.len() {
        search.marks[term] = Mark {
            reached: true,
            most: 0,
            place: 0,
            count: 0,
        };
    }
    search.queue.push(source)?;
    run(graph, &mut search)?;
    Ok(search)
}

/// A search for bounds that lead back below 0, and a term behind these, where it came to some.
#[derive(Drop)]
pub(crate) struct Round {
    pub(crate) search: Search,
    pub(crate) end: Option<u32>,
}

/// Begins at the second term of each link below 0.
fn begin(alloc: Global, graph: &Graph) -> Result<Search, Memory> {
    let mut search = Search {
        marks: marks(alloc, graph.terms(), true)?,
        queue: Vec::new(alloc),
    };
    for link in &graph.links {
        if link.most < 0 {
            search.queue.push(link.right)?;
        }
    }
    Ok(search)
}

/// Looks for bounds that lead back below 0.
pub(crate) fn below_nought(alloc: Global, graph: &Graph) -> Result<Round, Memory> {
    let mut search = begin(alloc, graph)?;
    let end = run(graph, &mut search)?;
    Ok(Round { search, end })
}
