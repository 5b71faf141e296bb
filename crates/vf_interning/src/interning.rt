//! Literals along a path, as facts over a table of their terms.

ghost use Rattle.std.specs.Prelude.{◌≡◌, ◌<◌, ◌++◌, ◌∷◌, [], ◌↔◌, ◌≤◌, pos, List, length, take, IsTrue, IfOk, OnOk, OnErr};
ghost use Rattle.vf_closure.specs.Terms.{number};
ghost use Rattle.vf_closure.specs.Literals as pure;
ghost use Rattle.vf_closure.specs.Closure.{no_unfoldings, Same, Conflict};
ghost use Rattle.vf_formula.specs.Literals.{shown_literal};
ghost use Rattle.vf_question.specs.Numbered.{all_terms};
ghost use Rattle.vf_question.specs.Questions.{at};
ghost use Rattle.vf_question.specs.Plain.{IsPlain, IsPlainLiteral};
ghost use Rattle.vf_interning.specs.Interned.{meant, IsInterned};

use crate::facts::{fact_of, number_both};
use crate::numbering::{MOST_ARISING, number_term};
use std::alloc::Global;
use std::marker::Model;
use vf_base::Memory;
use vf_combination::Combination;
use vf_formula::{Literal, Term};
use vf_reading::{closures_agree, equal_terms_agree};
use vf_refute::Fact;

/// Literals that come one after the other, and are taken back level by level, with the table of their
/// terms. The first says that 0 is 0.
#[derive(Drop)]
pub struct Interning {
    combination: Combination,
    terms: Vec<Term>,
    counts: Vec<usize>,
}

impl Model for Interning {
    ghost use Rattle.vf_interning.specs.Interned.{Interned, interned};

    ghost Value = { Interned };

    ghost use Rattle.vf_interning.specs.Codes.{coded_interned};

    ghost coded = { coded_interned };

    ghost view = { λ i. interned i.combination.facts i.combination.levels i.terms.items };

    ghost use Rattle.vf_interning.specs.Interned.{AreKept};

    ghost invariant = { λ i. AreKept i.combination i.terms.items i.counts.items };
}

/// Adds a literal to a table and its facts.
fn assume_in(
    alloc: Global,
    combination: &mut Combination,
    terms: &mut Vec<Term>,
    literal: &Literal,
) -> Result<(), Memory>
    requires interned { IsInterned combination.old.nodes combination.old.facts terms.old.items }
    requires plain { IsPlainLiteral (shown_literal literal.now) }
    ensures interned { IfOk result (λ _. IsInterned combination.new.nodes combination.new.facts terms.new.items) }
    ensures literals { OnOk result (meant terms.new.items combination.new.facts ≡ meant terms.old.items combination.old.facts ++ shown_literal literal.now ∷ []) }
    ensures kept { take (length terms.old.items) terms.new.items ≡ terms.old.items }
    ensures levels { combination.new.levels ≡ combination.old.levels }
{
    let fact = fact_of(alloc, combination, terms, literal)?;
    combination.assume(alloc, fact)?;
    Ok(())
}

/// Adds to a table and its facts that two terms are equal.
fn assume_equal_in(
    alloc: Global,
    combination: &mut Combination,
    terms: &mut Vec<Term>,
    a: &Term,
    b: &Term,
) -> Result<(), Memory>
    requires interned { IsInterned combination.old.nodes combination.old.facts terms.old.items }
    requires first { IsPlain a.now }
    requires second { IsPlain b.now }
    ensures interned { IfOk result (λ _. IsInterned combination.new.nodes combination.new.facts terms.new.items) }
    ensures literals { OnOk result (meant terms.new.items combination.new.facts ≡ meant terms.old.items combination.old.facts ++ pure.Equal a.now b.now ∷ []) }
    ensures kept { take (length terms.old.items) terms.new.items ≡ terms.old.items }
    ensures levels { combination.new.levels ≡ combination.old.levels }
{
    let pair = number_both(alloc, combination, terms, a, b)?;
    combination.assume(alloc, Fact::Equal(pair.first, pair.second))?;
    Ok(())
}

/// Adds to an empty table that 0 is 0.
fn assume_zero(
    alloc: Global,
    combination: &mut Combination,
    terms: &mut Vec<Term>,
) -> Result<(), Memory>
    requires nodes { combination.old.nodes ≡ [] }
    requires facts { combination.old.facts ≡ [] }
    requires terms { terms.old.items ≡ [] }
    ensures interned { IfOk result (λ _. IsInterned combination.new.nodes combination.new.facts terms.new.items) }
    ensures literals { OnOk result (meant terms.new.items combination.new.facts ≡ pure.Equal (number (pos 0)) (number (pos 0)) ∷ []) }
    ensures levels { combination.new.levels ≡ combination.old.levels }
{
    let zero = Term::of_number(alloc, 0);
    let number = number_term(alloc, combination, terms, &zero)?;
    combination.assume(alloc, Fact::Equal(number, number))?;
    Ok(())
}

impl Interning {
    /// Nothing but that 0 is 0.
    pub fn new(alloc: Global) -> Result<Interning, Memory>
        ensures literals { IfOk result (λ i. i.literals ≡ pure.Equal (number (pos 0)) (number (pos 0)) ∷ []) }
        ensures levels { IfOk result (λ i. i.levels ≡ []) }
    {
        let mut combination = Combination::new(alloc)?;
        let mut terms = Vec::new(alloc);
        assume_zero(alloc, &mut combination, &mut terms)?;
        Ok(Interning {
            combination,
            terms,
            counts: Vec::new(alloc),
        })
    }

    /// Adds a literal. Where there is no memory nothing is added.
    pub fn assume(&mut self, alloc: Global, literal: &Literal) -> Result<(), Memory>
        requires plain { IsPlainLiteral (shown_literal literal.now) }
        ensures literals { OnOk result (self.new.literals ≡ self.old.literals ++ shown_literal literal.now ∷ []) }
        ensures unchanged { OnErr result (self.new.literals ≡ self.old.literals) }
        ensures levels { self.new.levels ≡ self.old.levels }
    {
        self.combination.begin()?;
        let count = self.terms.len();
        match assume_in(alloc, &mut self.combination, &mut self.terms, literal) {
            Ok(()) => {
                self.combination.keep();
                Ok(())
            }
            Err(fault) => {
                self.combination.end();
                self.terms.truncate(count);
                Err(fault)
            }
        }
    }

    /// Adds that two terms are equal. Where there is no memory nothing is added.
    pub fn assume_equal(&mut self, alloc: Global, a: &Term, b: &Term) -> Result<(), Memory>
        requires first { IsPlain a.now }
        requires second { IsPlain b.now }
        ensures literals { OnOk result (self.new.literals ≡ self.old.literals ++ pure.Equal a.now b.now ∷ []) }
        ensures unchanged { OnErr result (self.new.literals ≡ self.old.literals) }
        ensures levels { self.new.levels ≡ self.old.levels }
    {
        self.combination.begin()?;
        let count = self.terms.len();
        match assume_equal_in(alloc, &mut self.combination, &mut self.terms, a, b) {
            Ok(()) => {
                self.combination.keep();
                Ok(())
            }
            Err(fault) => {
                self.combination.end();
                self.terms.truncate(count);
                Err(fault)
            }
        }
    }

    /// Whether the closure of the literals has a conflict, no fixpoint being unfolded.
    pub fn refuted(&self) -> bool
        ensures { IsTrue result ↔ Conflict no_unfoldings self.now.literals }
    {
        closures_agree();
        self.combination.refuted()
    }

    /// The terms of the literals, each at the place of its number.
    pub fn terms(&self) -> &[Term]
        ensures terms { result.now ≡ all_terms self.now.literals }
        ensures few { length result.now ≤ MOST_ARISING }
    {
        &self.terms
    }

    /// Whether two terms, by their numbers, are equal in the closure of the literals, which has no
    /// conflict, no fixpoint being unfolded.
    pub fn same(&self, a: u32, b: u32) -> bool
        requires fine { Conflict no_unfoldings self.now.literals → ⊥ }
        requires left { a < length (all_terms self.now.literals) }
        requires right { b < length (all_terms self.now.literals) }
        ensures { IsTrue result ↔ Same no_unfoldings self.now.literals (at (all_terms self.now.literals) a) (at (all_terms self.now.literals) b) }
    {
        closures_agree();
        equal_terms_agree();
        self.combination.same(a, b)
    }

    /// Begins a level.
    pub fn begin(&mut self) -> Result<(), Memory>
        ensures literals { self.new.literals ≡ self.old.literals }
        ensures levels { OnOk result (self.new.levels ≡ self.old.levels ++ self.old.literals ∷ []) }
        ensures unchanged { OnErr result (self.new.levels ≡ self.old.levels) }
    {
        self.counts.reserve(1)?;
        self.combination.begin()?;
        self.counts.push_reserved(self.terms.len());
        Ok(())
    }

    /// Ends the last level: the literals that came in it are gone. It takes no memory.
    pub fn end(&mut self)
        requires { 0 < length self.old.levels }
        ensures { (before : List (List pure.Literal)) (level : List pure.Literal) → self.old.levels ≡ before ++ level ∷ [] → (self.new.levels ≡ before) × (self.new.literals ≡ level) }
    {
        if let Some(count) = self.counts.pop() {
            self.combination.end();
            self.terms.truncate(count);
        }
    }
}
