//! Bounds and equalities of a question, as links between its terms.

use std::alloc::Global;
use vf_base::Memory;
use vf_refute::Fact;
use vf_table::{Node, is_integer, is_zero, number_at, shift_at};

/// What derives a link.
#[derive(Clone, Copy, Debug)]
pub(crate) enum Origin {
    /// A fact, by its number.
    Fact(u32),
    /// An equality that is a fact, the other way round.
    Turned(u32),
    /// The upper bound of a fact that is an equality or a difference.
    FactAbove(u32),
    /// The lower bound of a fact that is an equality or a difference.
    FactBelow(u32),
    /// The upper bound between a sum and its part, or a number and the zero that is named.
    TermAbove(u32, u32),
    /// The lower bound between a sum and its part, or a number and the zero that is named.
    TermBelow(u32, u32),
}

/// A bound: the first term less the second is at most the number. In links of equalities the number is 0.
#[derive(Clone, Copy, Debug)]
pub(crate) struct Link {
    pub(crate) left: u32,
    pub(crate) right: u32,
    pub(crate) most: i128,
    pub(crate) origin: Origin,
}

/// A number of a term or a fact; where there are too many, one that none has.
pub(crate) fn number_of(count: usize) -> u32 {
    match u32::try_from(count) {
        Ok(number) => number,
        Err(_) => u32::MAX,
    }
}

/// Adds two links between the same terms, by a number and its negative.
fn add_both(
    links: &mut Vec<Link>,
    above: Origin,
    below: Origin,
    left: u32,
    right: u32,
    by: i128,
) -> Result<(), Memory> {
    links.push(Link {
        left,
        right,
        most: by,
        origin: above,
    })?;
    links.push(Link {
        left: right,
        right: left,
        most: by.checked_neg().unwrap_or(0),
        origin: below,
    })?;
    Ok(())
}

/// Adds the bounds of a fact, by its number.
fn add_fact(links: &mut Vec<Link>, nodes: &[Node], number: u32, fact: Fact) -> Result<(), Memory> {
    match fact {
        Fact::AtMost(left, right, most) => {
            links.push(Link {
                left,
                right,
                most,
                origin: Origin::Fact(number),
            })?;
            Ok(())
        }
        Fact::Difference(left, right, by) => add_both(
            links,
            Origin::FactAbove(number),
            Origin::FactBelow(number),
            left,
            right,
            by,
        ),
        Fact::Equal(left, right) => {
            if is_integer(nodes, left) && is_integer(nodes, right) {
                return add_both(
                    links,
                    Origin::FactAbove(number),
                    Origin::FactBelow(number),
                    left,
                    right,
                    0,
                );
            }
            Ok(())
        }
        Fact::NotEqual(_, _) | Fact::NotDifference(_, _, _) | Fact::False => Ok(()),
    }
}

/// The number 0 among the terms.
fn zero_among(nodes: &[Node]) -> Option<u32> {
    for term in 0..number_of(nodes.len()) {
        if is_zero(nodes, term) {
            return Some(term);
        }
    }
    None
}

/// Adds the bounds that a term has as a sum, or as a number beside 0.
fn add_term(
    links: &mut Vec<Link>,
    nodes: &[Node],
    zero: Option<u32>,
    term: u32,
) -> Result<(), Memory> {
    if let Some(shift) = shift_at(nodes, term) {
        return add_both(
            links,
            Origin::TermAbove(term, 0),
            Origin::TermBelow(term, 0),
            term,
            shift.part,
            shift.number,
        );
    }
    let Some(zero) = zero else {
        return Ok(());
    };
    match number_at(nodes, term) {
        Some(number) => add_both(
            links,
            Origin::TermAbove(term, zero),
            Origin::TermBelow(term, zero),
            term,
            zero,
            number,
        ),
        None => Ok(()),
    }
}

/// The bounds of the facts and of the terms.
pub(crate) fn bound_links(
    alloc: Global,
    nodes: &[Node],
    facts: &[Fact],
) -> Result<Vec<Link>, Memory> {
    let mut links = Vec::new(alloc);
    for (at, fact) in facts.iter().enumerate() {
        add_fact(&mut links, nodes, number_of(at), *fact)?;
    }
    let zero = zero_among(nodes);
    for term in 0..number_of(nodes.len()) {
        add_term(&mut links, nodes, zero, term)?;
    }
    Ok(links)
}

/// Adds an equality both ways, if a fact is one.
fn add_equality(links: &mut Vec<Link>, number: u32, fact: Fact) -> Result<(), Memory> {
    match fact {
        Fact::Equal(left, right) => add_both(
            links,
            Origin::Fact(number),
            Origin::Turned(number),
            left,
            right,
            0,
        ),
        _ => Ok(()),
    }
}

/// The equalities of the facts, each both ways.
pub(crate) fn equality_links(alloc: Global, facts: &[Fact]) -> Result<Vec<Link>, Memory> {
    let mut links = Vec::new(alloc);
    for (at, fact) in facts.iter().enumerate() {
        add_equality(&mut links, number_of(at), *fact)?;
    }
    Ok(links)
}
