//! Classes and bounds along a path.

ghost use Rattle.std.specs.Prelude.{◌≡◌, ◌<◌, ◌↔◌, ◌++◌, ◌∷◌, [], List, ℕ, length, All, IsTrue, IfOk, OnOk, OnErr};
ghost use Rattle.vf_growing.specs.Steps.{IsTermOf};
ghost use Rattle.vf_refute.specs.Closure.{Same, Conflict};
ghost use Rattle.vf_ground.specs.Held.{IsFine, HasSmallNumber};
ghost use Rattle.vf_combination.specs.Combined.{Begun};

use crate::level::Level;
use crate::taking::{add_settled, assume_settled};
use crate::verdict::contradict_one;
use std::alloc::Global;
use std::marker::Model;
use vf_arith::{Bounds, MOST_POINTS};
use vf_base::Memory;
use vf_growing::GrowingClasses;
use vf_refute::Fact;
use vf_table::Node;

/// Classes of equal terms and bounds of integer terms that hold the closure of facts, which come and go
/// along a path.
#[derive(Drop)]
pub struct Combination {
    classes: GrowingClasses,
    bounds: Bounds,
    facts: Vec<Fact>,
    clashed: bool,
    levels: Vec<Level>,
}

impl Model for Combination {
    ghost use Rattle.vf_combination.specs.Combined.{Combined};
    ghost use Rattle.vf_combination.specs.Settled.{begun_of, IsPath};

    ghost Value = { Combined };

    ghost view = { λ c. record { nodes = c.classes.nodes; facts = c.facts.items; levels = begun_of c.levels.items c.classes.nodes c.facts.items } };

    ghost invariant = { λ c. IsPath c.classes c.bounds c.facts.items c.clashed c.levels.items };
}

impl Combination {
    /// No terms and no facts.
    pub fn new(alloc: Global) -> Result<Combination, Memory>
        ensures { IfOk result (λ c. (c.nodes ≡ []) × (c.facts ≡ []) × (c.levels ≡ [])) }
    {
        let bounds = Bounds::new(alloc, 0)?;
        Ok(Combination {
            classes: GrowingClasses::new(alloc),
            bounds,
            facts: Vec::new(alloc),
            clashed: false,
            levels: Vec::new(alloc),
        })
    }

    /// Answers the number of a term, and adds it where the table has none of its head and its parts.
    /// Where there is no memory nothing is added.
    pub fn add(&mut self, alloc: Global, node: Node) -> Result<u32, Memory>
        requires few { length self.old.nodes < MOST_POINTS }
        requires parts { All (λ part. part < length self.old.nodes) node.parts.items }
        requires small { HasSmallNumber node }
        ensures number { IfOk result (λ term. IsTermOf self.new.nodes term node) }
        ensures present { OnOk result ((term : ℕ) → IsTermOf self.old.nodes term node → self.new.nodes ≡ self.old.nodes) }
        ensures absent { IfOk result (λ term. ((k : ℕ) → IsTermOf self.old.nodes k node → ⊥) → (term ≡ length self.old.nodes) × (self.new.nodes ≡ self.old.nodes ++ node ∷ [])) }
        ensures facts { self.new.facts ≡ self.old.facts }
        ensures levels { self.new.levels ≡ self.old.levels }
        ensures unchanged { OnErr result (self.new.nodes ≡ self.old.nodes) }
    {
        let term = add_settled(
            alloc,
            &mut self.classes,
            &mut self.bounds,
            &mut self.clashed,
            node,
        )?;
        Ok(term)
    }

    /// Adds a fact. Where there is no memory nothing is added.
    pub fn assume(&mut self, alloc: Global, fact: Fact) -> Result<(), Memory>
        requires fine { IsFine self.old.nodes fact }
        ensures facts { OnOk result (self.new.facts ≡ self.old.facts ++ fact ∷ []) }
        ensures nodes { self.new.nodes ≡ self.old.nodes }
        ensures levels { self.new.levels ≡ self.old.levels }
        ensures unchanged { OnErr result (self.new.facts ≡ self.old.facts) }
    {
        self.facts.reserve(1)?;
        assume_settled(
            alloc,
            &mut self.classes,
            &mut self.bounds,
            &mut self.clashed,
            fact,
        )?;
        self.facts.push_reserved(fact);
        Ok(())
    }

    /// Whether the closure of the facts has a conflict.
    pub fn refuted(&self) -> bool
        ensures { IsTrue result ↔ Conflict self.now.nodes self.now.facts }
    {
        if self.bounds.conflict() {
            return true;
        }
        if self.clashed {
            return true;
        }
        contradict_one(&self.classes, &self.bounds, &self.facts)
    }

    /// Whether two terms are equal in the closure of the facts, which has no conflict.
    pub fn same(&self, a: u32, b: u32) -> bool
        requires fine { Conflict self.now.nodes self.now.facts → ⊥ }
        requires left { a < length self.now.nodes }
        requires right { b < length self.now.nodes }
        ensures { IsTrue result ↔ Same self.now.nodes self.now.facts a b }
    {
        self.classes.same(a, b)
    }

    /// The table.
    pub fn nodes(&self) -> &[Node]
        ensures { result.now ≡ self.now.nodes }
    {
        self.classes.nodes()
    }

    /// How many terms the table has.
    pub fn size(&self) -> u32
        ensures { result ≡ length self.now.nodes }
    {
        self.classes.size()
    }

    /// Begins a level. Where there is no memory none is begun.
    pub fn begin(&mut self) -> Result<(), Memory>
        ensures nodes { self.new.nodes ≡ self.old.nodes }
        ensures facts { self.new.facts ≡ self.old.facts }
        ensures levels { OnOk result (self.new.levels ≡ self.old.levels ++ record { nodes = self.old.nodes; facts = self.old.facts } ∷ []) }
        ensures unchanged { OnErr result (self.new.levels ≡ self.old.levels) }
    {
        let level = Level {
            class_steps: self.classes.steps(),
            bound_steps: self.bounds.steps(),
            terms: self.classes.size() as usize,
            facts: self.facts.len(),
            clashed: self.clashed,
        };
        self.levels.push(level)?;
        Ok(())
    }

    /// Ends the last level: the terms and the facts that came in it are gone. It takes no memory.
    pub fn end(&mut self)
        requires { 0 < length self.old.levels }
        ensures { (before : List Begun) (level : Begun) → self.old.levels ≡ before ++ level ∷ [] → (self.new.levels ≡ before) × (self.new.nodes ≡ level.nodes) × (self.new.facts ≡ level.facts) }
    {
        if let Some(level) = self.levels.pop() {
            self.classes.undo(level.class_steps);
            self.bounds.undo(level.bound_steps);
            self.facts.truncate(level.facts);
            self.clashed = level.clashed;
        }
    }

    /// Ends the last level, and keeps the terms and the facts that came in it.
    pub fn keep(&mut self)
        requires { 0 < length self.old.levels }
        ensures levels { (before : List Begun) (level : Begun) → self.old.levels ≡ before ++ level ∷ [] → self.new.levels ≡ before }
        ensures nodes { self.new.nodes ≡ self.old.nodes }
        ensures facts { self.new.facts ≡ self.old.facts }
    {
        let count = self.levels.len();
        self.levels.truncate(count - 1);
    }
}
