//! Numbers of terms.

ghost use Rattle.std.specs.Prelude.{◌≡◌, ◌≤◌, ◌++◌, ◌∷◌, [], pos, length, take, map, IfOk, OnOk};
ghost use Rattle.vf_formula.specs.Literals.{shown_literal};
ghost use Rattle.vf_closure.specs.Literals.{compares};
ghost use Rattle.vf_closure.specs.Terms.{number};
ghost use Rattle.vf_question.specs.Numbered.{place, with_one, with_term, with_all, with_literals, all_terms};
ghost use Rattle.vf_question.specs.Tabled.{places};
ghost use Rattle.vf_interning.specs.Interned.{parts_of, HasParts, IsTermTable};

use crate::heads::tabled_head;
use std::alloc::Global;
use vf_base::Memory;
use vf_formula::{Literal, Term};
use vf_interning::{MOST_ARISING, place};
use vf_table::Node;

/// Puts a term that is not there at the end of a table, which has its parts by these numbers, and
/// answers its number.
fn add_new(
    alloc: Global,
    nodes: &mut Vec<Node>,
    terms: &mut Vec<Term>,
    term: &Term,
    parts: Vec<u32>,
) -> Result<u32, Memory>
    requires table { IsTermTable nodes.old.items terms.old.items }
    requires there { HasParts terms.old.items term.now }
    requires parts { parts.items ≡ places terms.old.items (parts_of term.now) }
    requires new { length terms.old.items ≤ place term.now terms.old.items }
    ensures table { IfOk result (λ _. IsTermTable nodes.new.items terms.new.items) }
    ensures terms { OnOk result (terms.new.items ≡ terms.old.items ++ term.now ∷ []) }
    ensures number { IfOk result (λ n. n ≡ length terms.old.items) }
    ensures kept { take (length terms.old.items) terms.new.items ≡ terms.old.items }
{
    let number = terms.len();
    if number >= MOST_ARISING {
        return Err(Memory);
    }
    let head = tabled_head(terms, &term.head);
    terms.push(term.copy(alloc)?)?;
    nodes.push(Node { head, parts })?;
    Ok(number as u32)
}

/// The same, unless the term is there.
fn add_one(
    alloc: Global,
    nodes: &mut Vec<Node>,
    terms: &mut Vec<Term>,
    term: &Term,
    parts: Vec<u32>,
) -> Result<u32, Memory>
    requires table { IsTermTable nodes.old.items terms.old.items }
    requires there { HasParts terms.old.items term.now }
    requires parts { parts.items ≡ places terms.old.items (parts_of term.now) }
    ensures table { IfOk result (λ _. IsTermTable nodes.new.items terms.new.items) }
    ensures terms { OnOk result (terms.new.items ≡ with_one term.now terms.old.items) }
    ensures number { IfOk result (λ n. n ≡ place term.now terms.new.items) }
    ensures kept { take (length terms.old.items) terms.new.items ≡ terms.old.items }
{
    let known = place(terms, term);
    if known < terms.len() {
        return Ok(known as u32);
    }
    let number = add_new(alloc, nodes, terms, term, parts)?;
    Ok(number)
}

/// Answers the number of a term, which is put behind its parts where it is not there.
pub fn number_term(
    alloc: Global,
    nodes: &mut Vec<Node>,
    terms: &mut Vec<Term>,
    term: &Term,
) -> Result<u32, Memory>
    requires table { IsTermTable nodes.old.items terms.old.items }
    ensures table { IfOk result (λ _. IsTermTable nodes.new.items terms.new.items) }
    ensures terms { OnOk result (terms.new.items ≡ with_term term.now terms.old.items) }
    ensures number { IfOk result (λ n. n ≡ place term.now terms.new.items) }
    ensures kept { take (length terms.old.items) terms.new.items ≡ terms.old.items }
{
    let known = place(terms, term);
    if known < terms.len() {
        return Ok(known as u32);
    }
    let mut parts = Vec::new(alloc);
    for part in term.parts.as_slice() {
        let number = number_term(alloc, nodes, terms, part)?;
        parts.push(number)?;
    }
    add_one(alloc, nodes, terms, term, parts)
}

/// Numbers two terms.
fn number_both(
    alloc: Global,
    nodes: &mut Vec<Node>,
    terms: &mut Vec<Term>,
    a: &Term,
    b: &Term,
) -> Result<(), Memory>
    requires table { IsTermTable nodes.old.items terms.old.items }
    ensures table { IfOk result (λ _. IsTermTable nodes.new.items terms.new.items) }
    ensures terms { OnOk result (terms.new.items ≡ with_term b.now (with_term a.now terms.old.items)) }
{
    number_term(alloc, nodes, terms, a)?;
    number_term(alloc, nodes, terms, b)?;
    Ok(())
}

/// Numbers the terms that a literal compares.
pub(crate) fn number_literal(
    alloc: Global,
    nodes: &mut Vec<Node>,
    terms: &mut Vec<Term>,
    literal: &Literal,
) -> Result<(), Memory>
    requires table { IsTermTable nodes.old.items terms.old.items }
    ensures table { IfOk result (λ _. IsTermTable nodes.new.items terms.new.items) }
    ensures terms { OnOk result (terms.new.items ≡ with_all (compares (shown_literal literal.now)) terms.old.items) }
{
    match literal {
        Literal::Equal(a, b) => number_both(alloc, nodes, terms, a, b),
        Literal::NotEqual(a, b) => number_both(alloc, nodes, terms, a, b),
        Literal::AtMost(p, n, _) => number_both(alloc, nodes, terms, p, n),
        Literal::Difference(p, n, _) => number_both(alloc, nodes, terms, p, n),
        Literal::NotDifference(p, n, _) => number_both(alloc, nodes, terms, p, n),
        Literal::False => Ok(()),
    }
}

/// Numbers the terms of some literals.
fn number_literals(
    alloc: Global,
    nodes: &mut Vec<Node>,
    terms: &mut Vec<Term>,
    literals: &[Literal],
) -> Result<(), Memory>
    requires table { IsTermTable nodes.old.items terms.old.items }
    ensures table { IfOk result (λ _. IsTermTable nodes.new.items terms.new.items) }
    ensures terms { OnOk result (terms.new.items ≡ with_literals (map shown_literal literals.now) terms.old.items) }
{
    for literal in literals {
        number_literal(alloc, nodes, terms, literal)?;
    }
    Ok(())
}

/// Numbers 0.
pub(crate) fn number_zero(
    alloc: Global,
    nodes: &mut Vec<Node>,
    terms: &mut Vec<Term>,
) -> Result<(), Memory>
    requires table { IsTermTable nodes.old.items terms.old.items }
    ensures table { IfOk result (λ _. IsTermTable nodes.new.items terms.new.items) }
    ensures terms { OnOk result (terms.new.items ≡ with_term (number (pos 0)) terms.old.items) }
{
    let zero = Term::of_number(alloc, 0);
    match number_term(alloc, nodes, terms, &zero) {
        Ok(_) => Ok(()),
        Err(fault) => Err(fault),
    }
}

/// Numbers the terms of some literals, and 0 behind them, in an empty table.
pub fn number_all(
    alloc: Global,
    nodes: &mut Vec<Node>,
    terms: &mut Vec<Term>,
    literals: &[Literal],
) -> Result<(), Memory>
    requires nodes { nodes.old.items ≡ [] }
    requires terms { terms.old.items ≡ [] }
    ensures table { IfOk result (λ _. IsTermTable nodes.new.items terms.new.items) }
    ensures terms { OnOk result (terms.new.items ≡ all_terms (map shown_literal literals.now)) }
{
    number_literals(alloc, nodes, terms, literals)?;
    number_zero(alloc, nodes, terms)
}
