//! Numbers of the terms of literals, which come one after the other.

ghost use Rattle.std.specs.Prelude.{◌≡◌, ◌++◌, ◌∷◌, [], map, take, length, IfOk, OnOk, OnErr, IsTrue, ◌↔◌};
ghost use Rattle.vf_formula.specs.Literals.{shown_literal};
ghost use Rattle.vf_closure.specs.Literals.{compares};
ghost use Rattle.vf_question.specs.Numbered.{with_all};
ghost use Rattle.vf_question.specs.Tabled.{entries, tabled_fact};
ghost use Rattle.vf_interning.specs.Interned.{IsTermTable};
ghost use Rattle.vf_recheck.specs.Posed.{AreNumbered, IsPosed};

use crate::facts::fact;
use crate::numbering::{number_literal, number_zero};
use crate::posing::Posed;
use std::alloc::Global;
use std::marker::Model;
use vf_base::Memory;
use vf_formula::{Literal, Term};
use vf_refute::Fact;
use vf_table::Node;

/// Literals, with numbers for their terms. Contracts see the literals.
///
/// Where questions have literals in common at the front, these are numbered once.
#[derive(Drop)]
pub struct Tables {
    literals: Vec<Literal>,
    nodes: Vec<Node>,
    terms: Vec<Term>,
    facts: Vec<Fact>,
}

impl Model for Tables {
    ghost use Rattle.std.specs.Prelude.{List, map};
    ghost use Rattle.vf_closure.specs.Literals.{Literal};
    ghost use Rattle.vf_formula.specs.Literals.{shown_literal};
    ghost use Rattle.std.specs.Coded.{coded_list};
    ghost use Rattle.vf_interning.specs.Codes.{coded_literal};

    ghost Value = { List Literal };

    ghost coded = { coded_list coded_literal };

    ghost view = { λ t. map shown_literal t.literals.items };

    ghost use Rattle.vf_recheck.specs.Posed.{AreNumbered};

    ghost invariant = { λ t. AreNumbered (map shown_literal t.literals.items) t.nodes.items t.terms.items t.facts.items };
}

/// A copy of a node.
fn copy_node(alloc: Global, node: &Node) -> Result<Node, Memory>
    ensures { IfOk result (λ n. entries n ≡ entries node.now) }
{
    let parts = Vec::from_slice(alloc, &node.parts)?;
    Ok(Node {
        head: node.head,
        parts,
    })
}

/// A copy of a table.
fn copy_nodes(alloc: Global, nodes: &[Node]) -> Result<Vec<Node>, Memory>
    ensures { IfOk result (λ v. map entries v.items ≡ map entries nodes.now) }
{
    let mut copies = Vec::new(alloc);
    for node in nodes {
        copies.push(copy_node(alloc, node)?)?;
    }
    Ok(copies)
}

/// A copy of some terms.
fn copy_terms(alloc: Global, terms: &[Term]) -> Result<Vec<Term>, Memory>
    ensures { IfOk result (λ v. v.items ≡ terms.now) }
{
    let mut copies = Vec::new(alloc);
    for term in terms {
        copies.push(term.copy(alloc)?)?;
    }
    Ok(copies)
}

/// A copy of some facts.
fn copy_facts(alloc: Global, facts: &[Fact]) -> Result<Vec<Fact>, Memory>
    ensures { IfOk result (λ v. v.items ≡ facts.now) }
{
    let mut copies = Vec::new(alloc);
    for fact in facts {
        copies.push(*fact)?;
    }
    Ok(copies)
}

/// Whether two pairs of terms are one.
fn are_same(a: &Term, b: &Term, c: &Term, d: &Term) -> bool
    ensures { IsTrue result → (a.now ≡ c.now) × (b.now ≡ d.now) }
{
    a.same(c) && b.same(d)
}

/// Whether two literals are one.
fn are_one(one: &Literal, other: &Literal) -> bool
    ensures { IsTrue result → one.now ≡ other.now }
{
    match one {
        Literal::Equal(a, b) => match other {
            Literal::Equal(c, d) => are_same(a, b, c, d),
            _ => false,
        },
        Literal::NotEqual(a, b) => match other {
            Literal::NotEqual(c, d) => are_same(a, b, c, d),
            _ => false,
        },
        Literal::AtMost(a, b, m) => match other {
            Literal::AtMost(c, d, n) => *m == *n && are_same(a, b, c, d),
            _ => false,
        },
        Literal::Difference(a, b, m) => match other {
            Literal::Difference(c, d, n) => *m == *n && are_same(a, b, c, d),
            _ => false,
        },
        Literal::NotDifference(a, b, m) => match other {
            Literal::NotDifference(c, d, n) => *m == *n && are_same(a, b, c, d),
            _ => false,
        },
        Literal::False => match other {
            Literal::False => true,
            _ => false,
        },
    }
}

/// Whether literals stand at the front of others.
fn are_in_front(kept: &[Literal], wanted: &[Literal]) -> bool
    ensures { IsTrue result → take (length kept.now) wanted.now ≡ kept.now }
{
    if kept.len() > wanted.len() {
        return false;
    }
    for (i, literal) in kept.iter().enumerate() {
        if !are_one(literal, &wanted[i]) {
            return false;
        }
    }
    true
}

/// Adds a literal, and numbers its terms.
fn add(
    alloc: Global,
    literals: &mut Vec<Literal>,
    nodes: &mut Vec<Node>,
    terms: &mut Vec<Term>,
    facts: &mut Vec<Fact>,
    literal: &Literal,
) -> Result<(), Memory>
    requires numbered { AreNumbered (map shown_literal literals.old.items) nodes.old.items terms.old.items facts.old.items }
    ensures numbered { IfOk result (λ _. AreNumbered (map shown_literal literals.new.items) nodes.new.items terms.new.items facts.new.items) }
    ensures added { OnOk result (literals.new.items ≡ literals.old.items ++ literal.now ∷ []) }
{
    number_literal(alloc, nodes, terms, literal)?;
    facts.push(fact(terms, literal))?;
    literals.push(literal.copy(alloc)?)?;
    Ok(())
}

impl Tables {
    /// No literals, which takes no memory.
    pub fn new(alloc: Global) -> Tables
        ensures { result ≡ [] }
    {
        Tables {
            literals: Vec::new(alloc),
            nodes: Vec::new(alloc),
            terms: Vec::new(alloc),
            facts: Vec::new(alloc),
        }
    }

    /// Forgets all literals.
    fn clear(&mut self)
        ensures { self.new ≡ [] }
    {
        self.literals.clear();
        self.nodes.clear();
        self.terms.clear();
        self.facts.clear();
    }

    /// Adds a literal. Where there is no memory there are none.
    fn push(&mut self, alloc: Global, literal: &Literal) -> Result<(), Memory>
        ensures { OnOk result (self.new ≡ self.old ++ shown_literal literal.now ∷ []) }
    {
        match add(
            alloc,
            &mut self.literals,
            &mut self.nodes,
            &mut self.terms,
            &mut self.facts,
            literal,
        ) {
            Ok(()) => Ok(()),
            Err(fault) => {
                self.literals.clear();
                self.nodes.clear();
                self.terms.clear();
                self.facts.clear();
                Err(fault)
            }
        }
    }

    /// Goes on to other literals: what stands at the front of both keeps its numbers.
    pub fn follow(&mut self, alloc: Global, literals: &[Literal]) -> Result<(), Memory>
        ensures { OnOk result (self.new ≡ map shown_literal literals.now) }
    {
        if !are_in_front(&self.literals, literals) {
            self.clear();
        }
        for at in self.literals.len()..literals.len() {
            self.push(alloc, &literals[at])?;
        }
        Ok(())
    }

    /// The question of the literals and a last one.
    pub fn pose(&self, alloc: Global, last: &Literal) -> Result<Posed, Memory>
        ensures { IfOk result (IsPosed (self.now ++ shown_literal last.now ∷ [])) }
    {
        let mut nodes = copy_nodes(alloc, &self.nodes)?;
        let mut terms = copy_terms(alloc, &self.terms)?;
        number_literal(alloc, &mut nodes, &mut terms, last)?;
        let mut facts = copy_facts(alloc, &self.facts)?;
        facts.push(fact(&terms, last))?;
        number_zero(alloc, &mut nodes, &mut terms)?;
        Ok(Posed {
            nodes,
            terms,
            facts,
        })
    }
}
