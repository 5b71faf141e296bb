//! The prover.

ghost use Rattle.std.specs.Prelude.{◌≡◌, length};
ghost use Rattle.vf_asking.specs.Journal.{seen};
ghost use Rattle.vf_asking.specs.Right.{AreRightFrom};

use crate::deciding::{Explained, explain};
use crate::explain::Explain;
use std::marker::Model;
use vf_asking::{Answer, AskFault, Asker, Journal};
use vf_definitions::Definitions;
use vf_formula::Literal;
use vf_recheck::{Refutation, Tables};
use vf_trail::Node;
use vf_unfolding::Path;

/// An asker that owns its journal and gives right answers. It keeps a path, at most one, that stands where it was
/// asked last, and goes from there to where it is asked next. For each question that it answers Proved it makes a
/// refutation, which has passed the check, and keeps the last one until it is handed over. Contracts see it as its
/// journal, the number of entries that the journal held when the prover was made, and the number that it held when a
/// refutation was last asked for.
#[derive(Drop)]
pub struct Prover {
    journal: Journal,
    origin: usize,
    paths: Vec<Path>,
    nodes: Vec<Node>,
    tables: Tables,
    handed: usize,
    last: Option<Refutation>,
}

impl Model for Prover {
    ghost use Rattle.vf_prover.specs.Explained.{IsHandedOver};
    ghost use Rattle.vf_prover.specs.Held.{Held};
    ghost use Rattle.std.specs.Coded.{codes};
    ghost use Rattle.vf_asking.specs.contracts.journal.Journal as journal_row;

    ghost Value = { Held };

    ghost coded = { Prim.hlevel (codes, journal_row.the_row.coded) };

    ghost use Rattle.std.specs.Prelude.{◌≤◌, length};
    ghost use Rattle.vf_asking.specs.Journal.{seen};
    ghost use Rattle.vf_asking.specs.Right.{AreRightFrom};

    ghost view = { λ p. record { journal = p.journal; origin = p.origin; handed = p.handed } };

    ghost use Rattle.vf_prover.specs.Along.{IsStanding};

    ghost invariant = { λ p. AreRightFrom p.origin (seen p.journal) × (p.origin ≤ length p.journal.entries) × IsStanding p.journal.units p.journal.trail.facts p.paths.items p.nodes.items × (p.handed ≤ length p.journal.entries) × IsHandedOver (seen p.journal).entries p.handed p.last };
}

impl Prover {
    /// A prover over a journal, whose entries so far it does not answer for.
    pub fn new(journal: Journal) -> Prover
        ensures journal { result.journal ≡ journal }
        ensures origin { result.origin ≡ length journal.entries }
        ensures handed { result.handed ≡ length journal.entries }
    {
        let origin = journal.entries.len();
        let paths = Vec::new(journal.trail.allocator());
        let nodes = Vec::new(journal.trail.allocator());
        let tables = Tables::new(journal.trail.allocator());
        Prover {
            journal,
            origin,
            paths,
            nodes,
            tables,
            handed: origin,
            last: None,
        }
    }

    /// Hands the journal back, with right answers in each entry that it gained.
    pub fn finish(self) -> Journal
        ensures journal { result ≡ self.journal }
        ensures right { AreRightFrom self.origin (seen result) }
    {
        self.journal
    }
}

impl Asker for Prover {
    ghost journal = { λ p. p.journal };

    ghost origin = { λ p. p.origin };

    ghost handed = { λ p. p.handed };

    fn begin(&mut self, defs: &Definitions) -> Result<Node, AskFault> {
        self.journal.begin(defs)?;
        self.paths.clear();
        self.nodes.clear();
        Ok(Node::ROOT)
    }

    fn push(&mut self, at: Node, fact: &Literal) -> Result<Node, AskFault> {
        let node = self.journal.push(at, fact)?;
        Ok(node)
    }

    fn ask(&mut self, at: Node, goal: &Literal) -> Result<Answer, AskFault> {
        match explain(
            &self.journal,
            &mut self.tables,
            &mut self.paths,
            &mut self.nodes,
            at,
            goal,
        )? {
            Explained::Proved(refutation) => {
                self.journal.keep(at, goal, Answer::Proved)?;
                self.last = Some(refutation);
                Ok(Answer::Proved)
            }
            Explained::Unknown => {
                self.journal.keep(at, goal, Answer::Unknown)?;
                self.last = None;
                Ok(Answer::Unknown)
            }
            Explained::Terms => Err(AskFault::Terms),
        }
    }
}

impl Explain for Prover {
    fn last(&mut self) -> Option<Refutation> {
        self.handed = self.journal.entries.len();
        self.last.take()
    }
}
