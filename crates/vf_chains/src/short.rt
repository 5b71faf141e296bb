//! Short refutations.

ghost use Rattle.std.specs.Prelude.{◌≡◌, ⊤, IfOk, MatchOption};
ghost use Rattle.vf_refute.specs.Refutations.{IsRefutation};

use crate::chains::{chain, within_round};
use crate::graph::{Graph, graph_of};
use crate::links::{Link, bound_links, equality_links};
use crate::search::{below_nought, from_one, mark_of};
use crate::writing::{Meeting, write, write_chain};
use std::alloc::Global;
use vf_base::Memory;
use vf_refute::{Fact, Step, recheck};
use vf_table::Node;

/// How many of the last facts that deny something are looked at.
const MOST_DENIALS: usize = 4;

/// The steps of a refutation by a chain that leads from a term back to itself below 0.
fn of_round(alloc: Global, links: &[Link]) -> Result<Option<Vec<Step>>, Memory> {
    let mut steps = Vec::new(alloc);
    match write_chain(&mut steps, Meeting::Bounds, links)? {
        Some(last) => {
            write(&mut steps, Step::Conflict(last))?;
            Ok(Some(steps))
        }
        None => Ok(None),
    }
}

/// Looks for bounds that lead from a term back to itself below 0.
fn by_round(alloc: Global, graph: &Graph) -> Result<Option<Vec<Step>>, Memory> {
    let below = below_nought(alloc, graph)?;
    let Some(end) = below.end else {
        return Ok(None);
    };
    let marks = below.search.marks.as_slice();
    let term = within_round(graph, marks, end);
    match chain(alloc, graph, marks, term, term)? {
        Some(links) => of_round(alloc, links.as_slice()),
        None => Ok(None),
    }
}

/// The chain by which a term is bounded by a number over another one.
fn bounded(
    alloc: Global,
    graph: &Graph,
    left: u32,
    right: u32,
    most: i128,
) -> Result<Option<Vec<Link>>, Memory> {
    let search = from_one(alloc, graph, right)?;
    let marks = search.marks.as_slice();
    match mark_of(marks, left) {
        Some(mark) => {
            if mark.most != most {
                return Ok(None);
            }
            chain(alloc, graph, marks, left, right)
        }
        None => Ok(None),
    }
}

/// Two steps that bound a difference, from above and from below.
#[derive(Clone, Copy, Debug)]
struct Both {
    above: u32,
    below: u32,
}

/// Writes the steps that bound a difference both ways by a number.
fn write_both(
    alloc: Global,
    graph: &Graph,
    steps: &mut Vec<Step>,
    left: u32,
    right: u32,
    by: i128,
) -> Result<Option<Both>, Memory> {
    let Some(up) = bounded(alloc, graph, left, right, by)? else {
        return Ok(None);
    };
    let back = by.checked_neg().unwrap_or(0);
    let Some(down) = bounded(alloc, graph, right, left, back)? else {
        return Ok(None);
    };
    let Some(above) = write_chain(steps, Meeting::Bounds, up.as_slice())? else {
        return Ok(None);
    };
    match write_chain(steps, Meeting::Bounds, down.as_slice())? {
        Some(below) => Ok(Some(Both { above, below })),
        None => Ok(None),
    }
}

/// The steps of a refutation of a difference that is denied.
fn by_difference(
    alloc: Global,
    bounds: &Graph,
    left: u32,
    right: u32,
    by: i128,
) -> Result<Option<Vec<Step>>, Memory> {
    let mut steps = Vec::new(alloc);
    match write_both(alloc, bounds, &mut steps, left, right, by)? {
        Some(both) => {
            write(&mut steps, Step::DeniedDifference(both.above, both.below))?;
            Ok(Some(steps))
        }
        None => Ok(None),
    }
}

/// The steps of a refutation of an equality that is denied, by bounds of 0 both ways.
fn by_squeeze(
    alloc: Global,
    bounds: &Graph,
    left: u32,
    right: u32,
) -> Result<Option<Vec<Step>>, Memory> {
    let mut steps = Vec::new(alloc);
    match write_both(alloc, bounds, &mut steps, left, right, 0)? {
        Some(both) => {
            let equal = write(&mut steps, Step::Squeezed(both.above, both.below))?;
            write(&mut steps, Step::Conflict(equal))?;
            Ok(Some(steps))
        }
        None => Ok(None),
    }
}

/// The steps of a refutation of an equality that is denied, by equalities alone.
fn by_equalities(
    alloc: Global,
    equalities: &Graph,
    left: u32,
    right: u32,
) -> Result<Option<Vec<Step>>, Memory> {
    let Some(links) = bounded(alloc, equalities, left, right, 0)? else {
        return Ok(None);
    };
    let mut steps = Vec::new(alloc);
    match write_chain(&mut steps, Meeting::Equalities, links.as_slice())? {
        Some(equal) => {
            write(&mut steps, Step::Conflict(equal))?;
            Ok(Some(steps))
        }
        None => Ok(None),
    }
}

/// The steps of a refutation of an equality that is denied.
fn by_equality(
    alloc: Global,
    bounds: &Graph,
    equalities: &Graph,
    left: u32,
    right: u32,
) -> Result<Option<Vec<Step>>, Memory> {
    match by_equalities(alloc, equalities, left, right)? {
        Some(steps) => Ok(Some(steps)),
        None => by_squeeze(alloc, bounds, left, right),
    }
}

/// The steps of a refutation of a fact that denies something.
fn by_denial(
    alloc: Global,
    bounds: &Graph,
    equalities: &Graph,
    fact: Fact,
) -> Result<Option<Vec<Step>>, Memory> {
    match fact {
        Fact::NotEqual(left, right) => by_equality(alloc, bounds, equalities, left, right),
        Fact::NotDifference(left, right, by) => by_difference(alloc, bounds, left, right, by),
        _ => Ok(None),
    }
}

/// Whether a fact denies something.
fn denies(fact: Fact) -> bool {
    match fact {
        Fact::NotEqual(_, _) | Fact::NotDifference(_, _, _) => true,
        _ => false,
    }
}

/// The last facts that deny something, the last first.
fn denials(alloc: Global, facts: &[Fact]) -> Result<Vec<Fact>, Memory> {
    let mut last = Vec::new(alloc);
    for fact in facts.iter().rev() {
        if last.len() == MOST_DENIALS {
            return Ok(last);
        }
        if denies(*fact) {
            last.push(*fact)?;
        }
    }
    Ok(last)
}

/// Looks for a refutation of one of the last facts that deny something.
fn by_denials(
    alloc: Global,
    bounds: &Graph,
    equalities: &Graph,
    facts: &[Fact],
) -> Result<Option<Vec<Step>>, Memory> {
    let last = denials(alloc, facts)?;
    for fact in &last {
        if let Some(steps) = by_denial(alloc, bounds, equalities, *fact)? {
            return Ok(Some(steps));
        }
    }
    Ok(None)
}

/// Steps that may refute the facts over a table, by a chain of bounds or of equalities. Whether they do, the check
/// says; where none are found there may be others.
pub fn short_steps(
    alloc: Global,
    nodes: &[Node],
    facts: &[Fact],
) -> Result<Option<Vec<Step>>, Memory> {
    let bounds = graph_of(alloc, bound_links(alloc, nodes, facts)?, nodes.len())?;
    if let Some(steps) = by_round(alloc, &bounds)? {
        return Ok(Some(steps));
    }
    let equalities = graph_of(alloc, equality_links(alloc, facts)?, nodes.len())?;
    by_denials(alloc, &bounds, &equalities, facts)
}

/// A refutation of the facts over a table by a chain of bounds or of equalities. It is one that the check accepts;
/// where none is found, there may be others.
pub fn short_refutation(
    alloc: Global,
    nodes: &[Node],
    facts: &[Fact],
) -> Result<Option<Vec<Step>>, Memory>
    ensures { IfOk result (λ o. MatchOption o ⊤ (λ steps. IsRefutation nodes.now facts.now steps.items)) }
{
    match short_steps(alloc, nodes, facts)? {
        Some(steps) => {
            if recheck(alloc, nodes, facts, steps.as_slice())? {
                return Ok(Some(steps));
            }
            Ok(None)
        }
        None => Ok(None),
    }
}
