//! Journals: what was asked, and under which facts.

ghost use Rattle.std.proofs.Props.{props};
ghost use Rattle.vf_asking.specs.Whole.{AreFew, AreOfUnits, ArePlaced, ArePlainFacts};

use crate::answers::Answer;
use crate::asker::AskFault;
use std::alloc::Global;
use vf_base::{Memory, Sequence};
use vf_definitions::Definitions;
use vf_formula::Literal;
use vf_trail::{MOST_FACTS, Node, Trail};

/// The definitions of units, in the order in which the units were begun.
pub type DefinitionsList = Sequence<Definitions>;

/// A question with its answer: the unit that asked, the node of the trail whose path has the facts,
/// the goal, and the answer.
#[derive(Debug, Drop)]
pub struct Entry {
    pub unit: u32,
    pub at: Node,
    pub goal: Literal,
    pub answer: Answer,
}

/// Questions with their answers, in the order in which they were asked.
pub type EntryList = Sequence<Entry>;

/// A trail of facts, the definitions of the units that were begun, and the questions with their
/// answers. Every question was asked at a node of the trail by a unit that had begun.
#[derive(Debug, Drop)]
pub struct Journal {
    pub trail: Trail<Literal>,
    pub units: DefinitionsList,
    pub entries: EntryList,
    pub ghost plain: { ArePlainFacts trail.facts } by { Prim.hlevel props },
    pub ghost placed: { ArePlaced trail.facts entries } by { Prim.hlevel props },
    pub ghost of_units: { AreOfUnits units entries } by { Prim.hlevel props },
    pub ghost few: { AreFew units } by { Prim.hlevel props },
}

impl Journal {
    ghost use Rattle.std.specs.Prelude.{◌≡◌, [], ◌+◌, ◌<◌, ◌≤◌, ◌^◌, ◌↔◌, length, IfOk, IsErrOf, IsOkUnless, OnErr, OnOk};
    ghost use Rattle.vf_asking.specs.Journal.{HasAsked, HasBegun, HasNode, HasPushed, IsAsBefore, nothing_seen, seen};
    ghost use Rattle.vf_formula.specs.Literals.{shown_literal};
    ghost use Rattle.vf_question.specs.Plain.{IsPlainLiteral};

    /// The journal in which nothing was begun, pushed or asked, which takes no memory.
    pub fn new(alloc: Global) -> Journal
        ensures facts { result.trail.facts ≡ [] }
        ensures units { result.units ≡ [] }
        ensures entries { result.entries ≡ [] }
        ensures seen { seen result ≡ nothing_seen }
    {
        Journal {
            trail: Trail::new(alloc),
            units: Sequence::new(alloc),
            entries: Sequence::new(alloc),
        }
    }

    /// Begins the next unit with a copy of its definitions.
    pub fn begin(&mut self, defs: &Definitions) -> Result<(), Memory>
        requires { length self.old.units + 1 < 2 ^ 32 }
        ensures begun { OnOk result (HasBegun defs.now self.old self.new) }
        ensures unchanged { OnErr result (IsAsBefore self.old self.new) }
    {
        let defs = defs.copy(self.trail.allocator())?;
        self.units.push(defs)?;
        Ok(())
    }

    /// Hangs a fact on a node.
    pub fn push(&mut self, at: Node, fact: &Literal) -> Result<Node, AskFault>
        requires there { HasNode self.old at }
        requires plain { IsPlainLiteral (shown_literal fact.now) }
        ensures pushed { OnOk result (HasPushed at fact.now self.old self.new) }
        ensures node { IfOk result (λ node. node.number ≡ length self.old.trail.facts + 1) }
        ensures full { IsErrOf result AskFault.Full ↔ (MOST_FACTS ≤ length self.old.trail.facts) }
        ensures never_terms { IsErrOf result AskFault.Terms → ⊥ }
        ensures unchanged { OnErr result (IsAsBefore self.old self.new) }
    {
        if self.trail.len() >= MOST_FACTS {
            return Err(AskFault::Full);
        }
        let fact = fact.copy(self.trail.allocator())?;
        let node = self.trail.push(at, fact)?;
        Ok(node)
    }

    /// Keeps a question of the unit begun last with its answer.
    pub fn keep(&mut self, at: Node, goal: &Literal, answer: Answer) -> Result<(), Memory>
        requires begun { 0 < length self.old.units }
        requires there { HasNode self.old at }
        ensures asked { OnOk result (HasAsked at goal.now answer self.old self.new) }
        ensures unchanged { OnErr result (IsAsBefore self.old self.new) }
    {
        let goal = goal.copy(self.trail.allocator())?;
        let unit = (self.units.len() - 1) as u32;
        self.entries.push(Entry {
            unit,
            at,
            goal,
            answer,
        })?;
        Ok(())
    }
}
