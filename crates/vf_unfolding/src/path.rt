//! Facts along a path, with what they ask to be unfolded.

ghost use Rattle.std.specs.Prelude.{◌≡◌, ◌≤◌, ◌<◌, ◌++◌, ◌∷◌, [], ◌↔◌, List, length, take, map, IsTrue, IfOk, OnOk, OnErr};
ghost use Rattle.vf_closure.specs.Closure.{Unfoldings, Conflict};
ghost use Rattle.vf_formula.specs.Literals.{shown_literal};
ghost use Rattle.vf_question.specs.Numbered.{terms_of};
ghost use Rattle.vf_question.specs.Plain.{IsPlainLiteral};
ghost use Rattle.vf_unfolding.specs.Rounds.{AreKeptFor, AreInTurn, AreEnough};
ghost use Rattle.vf_unfolding.specs.Walked.{Stand};

use crate::mark::Mark;
use crate::marking::mark_literal;
use crate::settling::settle;
use std::alloc::Global;
use std::marker::Model;
use vf_base::Memory;
use vf_formula::Literal;
use vf_interning::Interning;
use vf_question::Unfolding;
use vf_unfold::Unfolder;

/// Facts along a path, each at a level of its own, with the unfoldings that they ask for. Contracts see
/// where it stands, its facts and what was unfolded for them, and where it stood at the beginning of each
/// level.
#[derive(Drop)]
pub struct Path {
    interning: Interning,
    facts: Vec<Literal>,
    made: Vec<Unfolding>,
    asked: Vec<u32>,
    marks: Vec<Mark>,
}

impl Model for Path {
    ghost use Rattle.vf_unfolding.specs.Walked.{Walked, walked, kept};

    ghost Value = { Walked };

    ghost use Rattle.vf_unfolding.specs.Codes.{coded_walked};

    ghost coded = { coded_walked };

    ghost view = { λ p. walked (kept p.facts.items p.made.items p.asked.items) p.marks.items };

    ghost use Rattle.vf_unfolding.specs.Walked.{IsPath};

    ghost invariant = { λ p. IsPath p.interning (kept p.facts.items p.made.items p.asked.items) p.marks.items };
}

/// Adds a fact, and unfolds what it asks for.
fn add<U: Unfolder>(
    alloc: Global,
    unfolder: &U,
    interning: &mut Interning,
    facts: &mut Vec<Literal>,
    made: &mut Vec<Unfolding>,
    asked: &mut Vec<u32>,
    fact: &Literal,
) -> Result<(), Memory>
    requires kept { AreKeptFor interning.old.literals (map shown_literal facts.old.items) made.old.items asked.old.items }
    requires turn { AreInTurn (U.unfoldings unfolder.now) (map shown_literal facts.old.items) made.old.items }
    requires plain { IsPlainLiteral (shown_literal fact.now) }
    ensures kept { IfOk result (λ _. AreKeptFor interning.new.literals (map shown_literal facts.new.items) made.new.items asked.new.items) }
    ensures enough { IfOk result (λ _. AreEnough (U.unfoldings unfolder.now) (map shown_literal facts.new.items) made.new.items) }
    ensures added { OnOk result (facts.new.items ≡ facts.old.items ++ fact.now ∷ []) }
    ensures levels { interning.new.levels ≡ interning.old.levels }
    ensures facts { take (length facts.old.items) facts.new.items ≡ facts.old.items }
    ensures made { take (length made.old.items) made.new.items ≡ made.old.items }
    ensures asked { take (length asked.old.items) asked.new.items ≡ asked.old.items }
{
    interning.assume(alloc, fact)?;
    mark_literal(interning, asked, fact)?;
    facts.push(fact.copy(alloc)?)?;
    settle(alloc, unfolder, interning, facts, asked, made)
}

impl Path {
    /// No facts, with what the number 0 alone asks to be unfolded.
    pub fn new<U: Unfolder>(alloc: Global, unfolder: &U) -> Result<Path, Memory>
        ensures facts { IfOk result (λ p. p.now.facts ≡ []) }
        ensures levels { IfOk result (λ p. p.levels ≡ []) }
        ensures enough { IfOk result (λ p. AreEnough (U.unfoldings unfolder.now) p.now.facts p.now.made) }
    {
        let mut interning = Interning::new(alloc)?;
        let facts = Vec::new(alloc);
        let asked = Vec::new(alloc);
        let mut made = Vec::new(alloc);
        settle(alloc, unfolder, &mut interning, &facts, &asked, &mut made)?;
        Ok(Path {
            interning,
            facts,
            made,
            asked,
            marks: Vec::new(alloc),
        })
    }

    /// Adds a fact at a level of its own, and unfolds what it asks for; what was unfolded in turn stays.
    /// Where there is no memory the path stays as it was.
    pub fn push<U: Unfolder>(
        &mut self,
        alloc: Global,
        unfolder: &U,
        fact: &Literal,
    ) -> Result<(), Memory>
        requires turn { AreInTurn (U.unfoldings unfolder.now) self.old.now.facts self.old.now.made }
        requires plain { IsPlainLiteral (shown_literal fact.now) }
        ensures facts { OnOk result (self.new.now.facts ≡ self.old.now.facts ++ shown_literal fact.now ∷ []) }
        ensures enough { IfOk result (λ _. AreEnough (U.unfoldings unfolder.now) self.new.now.facts self.new.now.made) }
        ensures levels { OnOk result (self.new.levels ≡ self.old.levels ++ self.old.now ∷ []) }
        ensures unchanged { OnErr result (self.new ≡ self.old) }
    {
        self.marks.reserve(1)?;
        self.interning.begin()?;
        let mark = Mark {
            facts: self.facts.len(),
            made: self.made.len(),
            asked: self.asked.len(),
        };
        match add(
            alloc,
            unfolder,
            &mut self.interning,
            &mut self.facts,
            &mut self.made,
            &mut self.asked,
            fact,
        ) {
            Ok(()) => {
                self.marks.push_reserved(mark);
                Ok(())
            }
            Err(fault) => {
                self.interning.end();
                self.facts.truncate(mark.facts);
                self.made.truncate(mark.made);
                self.asked.truncate(mark.asked);
                Err(fault)
            }
        }
    }

    /// Takes the last fact back, with what was unfolded since it came. It takes no memory.
    pub fn pop(&mut self)
        requires { 0 < length self.old.levels }
        ensures { (before : List Stand) (level : Stand) → self.old.levels ≡ before ++ level ∷ [] → (self.new.levels ≡ before) × (self.new.now ≡ level) }
    {
        if let Some(mark) = self.marks.pop() {
            self.interning.end();
            self.facts.truncate(mark.facts);
            self.made.truncate(mark.made);
            self.asked.truncate(mark.asked);
        }
    }

    /// The facts, the first first.
    pub fn facts(&self) -> &[Literal]
        ensures { map shown_literal result.now ≡ self.now.now.facts }
    {
        self.facts.as_slice()
    }

    /// What was unfolded for them, the first first.
    pub fn made(&self) -> &[Unfolding]
        ensures { result.now ≡ self.now.now.made }
    {
        self.made.as_slice()
    }

    /// How many terms the facts have, each counted once.
    pub fn count(&self) -> usize
        ensures { result ≡ length (terms_of self.now.now.facts) }
    {
        self.asked.len()
    }

    /// Whether the closure of the facts has a conflict, fixpoints being unfolded to depth 4, where enough
    /// was unfolded.
    pub fn refuted(&self) -> bool
        ensures { (u : Unfoldings) → AreEnough u self.now.now.facts self.now.now.made → IsTrue result ↔ Conflict u self.now.now.facts }
    {
        self.interning.refuted()
    }
}
