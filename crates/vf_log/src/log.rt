//! A log of steps.

ghost use Rattle.std.specs.Prelude.{◌≡◌, ◌^◌, ℕ, ℤ, neg_ℤ, ◌+ℤ◌, ◌++◌, ◌∷◌, [], IfOk, OnOk, OnErr};
ghost use Rattle.vf_refute.specs.Refutations.{IsWithin, IsWithinLimit, HasDerived, IsOfFact, IsCongruent, IsOfPart, IsOffset, IsLevel, IsSqueezed, Derives, IsConflict, IsRefutation};
ghost use Rattle.vf_log.specs.Derivations.{HasAdded};

use std::alloc::Global;
use std::marker::Model;
use vf_base::Memory;
use vf_refute::{Derived, Fact, Numbers, Step, derive};
use vf_table::Node;

/// The most steps that a log has: the number of each has 32 bits.
const MOST_STEPS: usize = u32::MAX as usize;

/// The steps over a question so far, with what each of them derived.
#[derive(Drop)]
pub struct Log {
    nodes: Vec<Node>,
    facts: Vec<Fact>,
    steps: Vec<Step>,
    known: Vec<Derived>,
}

impl Model for Log {
    ghost use Rattle.std.specs.Prelude.{[]};
    ghost use Rattle.vf_log.specs.Derivations.{Derivation, AreDerived};

    ghost Value = { Derivation };

    ghost view = { λ l. record { nodes = l.nodes.items; facts = l.facts.items; steps = l.steps.items; known = l.known.items } };

    ghost invariant = { λ l. AreDerived l.nodes.items l.facts.items [] l.steps.items l.known.items };
}

impl Log {
    /// No steps over a question.
    pub fn new(alloc: Global, nodes: Vec<Node>, facts: Vec<Fact>) -> Log
        ensures nodes { result.nodes ≡ nodes.items }
        ensures facts { result.facts ≡ facts.items }
        ensures empty { result.known ≡ [] }
    {
        Log {
            nodes,
            facts,
            steps: Vec::new(alloc),
            known: Vec::new(alloc),
        }
    }

    /// The table of the question.
    pub fn nodes(&self) -> &[Node]
        ensures { result.now ≡ self.now.nodes }
    {
        &self.nodes
    }

    /// The facts of the question.
    pub fn facts(&self) -> &[Fact]
        ensures { result.now ≡ self.now.facts }
    {
        &self.facts
    }

    /// What each step derived.
    pub fn known(&self) -> &[Derived]
        ensures { result.now ≡ self.now.known }
    {
        &self.known
    }

    /// Adds a step. Where there is no memory, or the number of steps is at its most, nothing is
    /// added.
    pub fn add(&mut self, step: Step) -> Result<u32, Memory>
        requires derives { (d : Derived) × Derives self.old.nodes self.old.facts self.old.known step d × IsWithinLimit d }
        ensures added { IfOk result (λ s. (d : Derived) → Derives self.old.nodes self.old.facts self.old.known step d → HasAdded self.old self.new s d) }
        ensures unchanged { OnErr result (self.new ≡ self.old) }
    {
        if self.known.len() >= MOST_STEPS {
            return Err(Memory);
        }
        let number = self.known.len() as u32;
        match derive(&self.nodes, &self.facts, &self.known, &step) {
            Some(derived) => self.append(step, derived)?,
            None => unreachable!(),
        }
        Ok(number)
    }

    /// Appends a step and what it derived. Where there is no memory nothing is appended.
    fn append(&mut self, step: Step, derived: Derived) -> Result<(), Memory>
        requires derives { Derives self.old.nodes self.old.facts self.old.known step derived }
        requires small { IsWithinLimit derived }
        ensures nodes { self.new.nodes ≡ self.old.nodes }
        ensures facts { self.new.facts ≡ self.old.facts }
        ensures known { OnOk result (self.new.known ≡ self.old.known ++ derived ∷ []) }
        ensures unchanged { OnErr result (self.new ≡ self.old) }
    {
        self.known.push(derived)?;
        match self.steps.push(step) {
            Ok(()) => Ok(()),
            Err(_) => {
                self.known.pop();
                Err(Memory)
            }
        }
    }

    /// Derives a fact by its number among the facts.
    pub fn fact(&mut self, i: u32) -> Result<u32, Memory>
        requires gives { (d : Derived) × IsOfFact self.old.facts i d × IsWithinLimit d }
        ensures added { IfOk result (λ s. (d : Derived) → IsOfFact self.old.facts i d → HasAdded self.old self.new s d) }
        ensures unchanged { OnErr result (self.new ≡ self.old) }
    {
        self.add(Step::Fact(i))
    }

    /// Derives that a term is equal to itself.
    pub fn reflexive(&mut self, t: u32) -> Result<u32, Memory>
        ensures added { IfOk result (λ s. HasAdded self.old self.new s (Derived.AreEqual t t)) }
        ensures unchanged { OnErr result (self.new ≡ self.old) }
    {
        self.add(Step::Reflexive(t))
    }

    /// Derives an equality the other way round.
    pub fn symmetric(&mut self, a: u32) -> Result<u32, Memory>
        requires equal { (x : ℕ) × (y : ℕ) × HasDerived self.old.known a (Derived.AreEqual x y) }
        ensures added { IfOk result (λ s. (x y : ℕ) → HasDerived self.old.known a (Derived.AreEqual x y) → HasAdded self.old self.new s (Derived.AreEqual y x)) }
        ensures unchanged { OnErr result (self.new ≡ self.old) }
    {
        self.add(Step::Symmetric(a))
    }

    /// Derives the equality of the ends of two equalities that meet.
    pub fn transitive(&mut self, a: u32, b: u32) -> Result<u32, Memory>
        requires equal { (x : ℕ) × (y : ℕ) × (z : ℕ) × HasDerived self.old.known a (Derived.AreEqual x y) × HasDerived self.old.known b (Derived.AreEqual y z) }
        ensures added { IfOk result (λ s. (x y z : ℕ) → HasDerived self.old.known a (Derived.AreEqual x y) → HasDerived self.old.known b (Derived.AreEqual y z) → HasAdded self.old self.new s (Derived.AreEqual x z)) }
        ensures unchanged { OnErr result (self.new ≡ self.old) }
    {
        self.add(Step::Transitive(a, b))
    }

    /// Derives that two terms of one head are equal, from the equalities of their parts.
    pub fn congruent(&mut self, a: u32, b: u32, steps: Vec<u32>) -> Result<u32, Memory>
        requires equal { IsCongruent self.old.nodes self.old.known a b steps.items (Derived.AreEqual a b) }
        ensures added { IfOk result (λ s. HasAdded self.old self.new s (Derived.AreEqual a b)) }
        ensures unchanged { OnErr result (self.new ≡ self.old) }
    {
        self.add(Step::Congruent(a, b, Numbers { numbers: steps }))
    }

    /// Derives that two equal terms of one constructor have one part at a place.
    pub fn part(&mut self, a: u32, i: u32) -> Result<u32, Memory>
        requires equal { (p : ℕ) × (q : ℕ) × IsOfPart self.old.nodes self.old.known a i (Derived.AreEqual p q) }
        ensures added { IfOk result (λ s. (p q : ℕ) → IsOfPart self.old.nodes self.old.known a i (Derived.AreEqual p q) → HasAdded self.old self.new s (Derived.AreEqual p q)) }
        ensures unchanged { OnErr result (self.new ≡ self.old) }
    {
        self.add(Step::Part(a, i))
    }

    /// Derives the upper bound between a sum and its part, or a number and the zero that is named.
    pub fn above(&mut self, a: u32, zero: u32) -> Result<u32, Memory>
        requires offset { (q : ℕ) × (c : ℤ) × IsOffset self.old.nodes a zero q c × IsWithin (2 ^ 126) c }
        ensures added { IfOk result (λ s. (q : ℕ) (c : ℤ) → IsOffset self.old.nodes a zero q c → HasAdded self.old self.new s (Derived.AreWithin a q c)) }
        ensures unchanged { OnErr result (self.new ≡ self.old) }
    {
        self.add(Step::Above(a, zero))
    }

    /// Derives the lower bound between a sum and its part, or a number and the zero that is named.
    pub fn below(&mut self, a: u32, zero: u32) -> Result<u32, Memory>
        requires offset { (q : ℕ) × (c : ℤ) × IsOffset self.old.nodes a zero q c × IsWithin (2 ^ 126) (neg_ℤ c) }
        ensures added { IfOk result (λ s. (q : ℕ) (c : ℤ) → IsOffset self.old.nodes a zero q c → HasAdded self.old self.new s (Derived.AreWithin q a (neg_ℤ c))) }
        ensures unchanged { OnErr result (self.new ≡ self.old) }
    {
        self.add(Step::Below(a, zero))
    }

    /// Derives the upper bound of an equality of integer terms, or of a difference.
    pub fn level_above(&mut self, a: u32) -> Result<u32, Memory>
        requires level { (x : ℕ) × (y : ℕ) × (c : ℤ) × IsLevel self.old.nodes self.old.known a x y c × IsWithin (2 ^ 126) c }
        ensures added { IfOk result (λ s. (x y : ℕ) (c : ℤ) → IsLevel self.old.nodes self.old.known a x y c → HasAdded self.old self.new s (Derived.AreWithin x y c)) }
        ensures unchanged { OnErr result (self.new ≡ self.old) }
    {
        self.add(Step::LevelAbove(a))
    }

    /// Derives the lower bound of an equality of integer terms, or of a difference.
    pub fn level_below(&mut self, a: u32) -> Result<u32, Memory>
        requires level { (x : ℕ) × (y : ℕ) × (c : ℤ) × IsLevel self.old.nodes self.old.known a x y c × IsWithin (2 ^ 126) (neg_ℤ c) }
        ensures added { IfOk result (λ s. (x y : ℕ) (c : ℤ) → IsLevel self.old.nodes self.old.known a x y c → HasAdded self.old self.new s (Derived.AreWithin y x (neg_ℤ c))) }
        ensures unchanged { OnErr result (self.new ≡ self.old) }
    {
        self.add(Step::LevelBelow(a))
    }

    /// Derives the bound of two bounds that meet.
    pub fn chain(&mut self, a: u32, b: u32) -> Result<u32, Memory>
        requires bounds { (x : ℕ) × (y : ℕ) × (z : ℕ) × (c : ℤ) × (e : ℤ) × HasDerived self.old.known a (Derived.AreWithin x y c) × HasDerived self.old.known b (Derived.AreWithin y z e) × IsWithin (2 ^ 126) (c +ℤ e) }
        ensures added { IfOk result (λ s. (x y z : ℕ) (c e : ℤ) → HasDerived self.old.known a (Derived.AreWithin x y c) → HasDerived self.old.known b (Derived.AreWithin y z e) → HasAdded self.old self.new s (Derived.AreWithin x z (c +ℤ e))) }
        ensures unchanged { OnErr result (self.new ≡ self.old) }
    {
        self.add(Step::Chain(a, b))
    }

    /// Derives that two integer terms that are within 0 both ways are equal.
    pub fn squeezed(&mut self, a: u32, b: u32) -> Result<u32, Memory>
        requires bounds { (x : ℕ) × (y : ℕ) × IsSqueezed self.old.nodes self.old.known a b (Derived.AreEqual x y) }
        ensures added { IfOk result (λ s. (x y : ℕ) → IsSqueezed self.old.nodes self.old.known a b (Derived.AreEqual x y) → HasAdded self.old self.new s (Derived.AreEqual x y)) }
        ensures unchanged { OnErr result (self.new ≡ self.old) }
    {
        self.add(Step::Squeezed(a, b))
    }

    /// The steps, with a last one that names a conflict: a refutation.
    pub fn refutation(self, last: Step) -> Result<Vec<Step>, Memory>
        requires conflict { IsConflict self.nodes self.facts self.known last }
        ensures { IfOk result (λ steps. IsRefutation self.nodes self.facts steps.items) }
    {
        let mut steps = self.steps;
        steps.push(last)?;
        Ok(steps)
    }
}
