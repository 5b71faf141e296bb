//! Links by the terms to which they lead.

use crate::links::{Link, number_of};
use std::alloc::Global;
use vf_base::Memory;

/// Links, and for each term a row of those whose second term it is. Places are counted from 1; 0 is none.
#[derive(Drop)]
pub(crate) struct Graph {
    pub(crate) links: Vec<Link>,
    /// For each term, the first link of its row.
    first: Vec<u32>,
    /// For each link, the next one of its row.
    next: Vec<u32>,
}

/// As many zeros.
fn zeros(alloc: Global, count: usize) -> Result<Vec<u32>, Memory> {
    let mut all = Vec::new(alloc);
    for _ in 0..count {
        all.push(0)?;
    }
    Ok(all)
}

/// The number at a place, 0 where there is none.
fn entry(numbers: &[u32], place: usize) -> u32 {
    match numbers.get(place) {
        Some(number) => *number,
        None => 0,
    }
}

/// Puts a link in front of the row of its second term.
fn put(first: &mut [u32], next: &mut Vec<u32>, link: &Link, place: u32) -> Result<(), Memory> {
    let row = link.right as usize;
    next.push(entry(first, row))?;
    if row < first.len() {
        first[row] = place;
    }
    Ok(())
}

/// The graph of some links between terms of this number.
pub(crate) fn graph_of(alloc: Global, links: Vec<Link>, terms: usize) -> Result<Graph, Memory> {
    let mut first = zeros(alloc, terms)?;
    let mut next = Vec::new(alloc);
    for (at, link) in links.iter().enumerate() {
        put(&mut first, &mut next, link, number_of(at).wrapping_add(1))?;
    }
    Ok(Graph { links, first, next })
}

impl Graph {
    /// How many terms there are.
    pub(crate) fn terms(&self) -> usize {
        self.first.len()
    }

    /// The first link of the row of a term.
    pub(crate) fn first(&self, term: u32) -> u32 {
        entry(&self.first, term as usize)
    }

    /// The next link of a row.
    pub(crate) fn next(&self, place: u32) -> u32 {
        entry(&self.next, (place as usize).wrapping_sub(1))
    }

    /// The link at a place.
    pub(crate) fn link(&self, place: u32) -> Option<Link> {
        let link = self.links.get((place as usize).wrapping_sub(1))?;
        Some(*link)
    }
}
