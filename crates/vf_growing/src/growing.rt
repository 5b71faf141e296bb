//! Classes of equal terms, step by step.

ghost use Rattle.std.specs.Prelude.{◌≡◌, ℕ, ◌<◌, ◌≤◌, ◌+◌, ◌-◌, ◌^◌, ◌∷◌, [], ◌++◌, ◌↔◌, length, take, All, IsTrue, IfOk, OnOk, OnErr, MatchOption};
ghost use Rattle.vf_refute.specs.Refutations.{HasDerived};
ghost use Rattle.vf_log.specs.Copies.{IsCopy, HaveSameTerms};
ghost use Rattle.vf_log.specs.Derivations.{IsContinued};
ghost use Rattle.vf_congruence.specs.Congruence.{Congruent, WereMerged};
ghost use Rattle.vf_congruence.specs.Explained.{AreReasons};
ghost use Rattle.vf_growing.specs.Steps.{terms_of, merges_of, IsTermOf};
ghost use Rattle.vf_growing.specs.Histories.{OnlyMovedMeet};

use crate::journal::{Layer, Moved, Step, merges_before, moved_between, restore, terms_before};
use std::alloc::Global;
use std::marker::Model;
use vf_base::Memory;
use vf_congruence::{derive_equality, join_and_settle, settle};
use vf_log::Log;
use vf_refute::Derived;
use vf_table::Node;

/// Whether two nodes have one head and the same parts.
fn is_copy(kept: &Node, node: &Node) -> bool
    ensures { IsTrue result ↔ IsCopy kept.now node.now }
{
    node.head == kept.head && node.parts.as_slice() == kept.parts.as_slice()
}

/// The first term of a table that has the head and the parts of a node.
fn find(nodes: &[Node], node: &Node) -> Option<u32>
    requires { length nodes.now < 2 ^ 32 }
    ensures { MatchOption result ((term : ℕ) → IsTermOf nodes.now term node.now → ⊥) (λ term. IsTermOf nodes.now term node.now) }
{
    for (term, kept) in nodes.iter().enumerate() {
        if is_copy(kept, node) {
            return Some(term as u32);
        }
    }
    None
}

/// Numbers, and one more.
fn with_one_more(alloc: Global, numbers: &[u32], more: u32) -> Result<Vec<u32>, Memory>
    ensures { IfOk result (λ v. v.items ≡ numbers.now ++ more ∷ []) }
{
    let mut longer = Vec::from_slice(alloc, numbers)?;
    longer.push(more)?;
    Ok(longer)
}

/// Classes of equal terms of a table: those of the least congruence that has what was merged. The
/// terms come one by one.
#[derive(Drop)]
pub struct GrowingClasses {
    nodes: Vec<Node>,
    merged: Vec<(u32, u32)>,
    classes: Vec<u32>,
    layers: Vec<Layer>,
}

impl Model for GrowingClasses {
    ghost use Rattle.std.specs.Prelude.{sum};
    ghost use Rattle.vf_growing.specs.Steps.{Growth};
    ghost use Rattle.vf_growing.specs.Histories.{steps_of};

    ghost Value = { Growth };

    ghost view = { λ g. record { nodes = g.nodes.items; merged = g.merged.items; steps = steps_of g.layers.items; weight = sum g.classes.items } };

    ghost use Rattle.vf_growing.specs.Histories.{AreKept};

    ghost invariant = { λ g. AreKept g.layers.items g.nodes.items g.merged.items g.classes.items };
}

impl GrowingClasses {
    /// The classes of a table that has no terms yet.
    pub fn new(alloc: Global) -> GrowingClasses
        ensures nodes { result.nodes ≡ [] }
        ensures merged { result.merged ≡ [] }
        ensures steps { result.steps ≡ [] }
    {
        GrowingClasses {
            nodes: Vec::new(alloc),
            merged: Vec::new(alloc),
            classes: Vec::new(alloc),
            layers: Vec::new(alloc),
        }
    }

    /// Answers the number of a term, and adds it where the table has none of its head and its parts.
    /// Where there is no memory nothing is added.
    pub fn add(&mut self, alloc: Global, node: Node) -> Result<u32, Memory>
        requires few { length self.old.nodes + 1 < 2 ^ 32 }
        requires parts { All (λ part. part < length self.old.nodes) node.parts.items }
        ensures number { IfOk result (λ term. IsTermOf self.new.nodes term node) }
        ensures present { OnOk result ((term : ℕ) → IsTermOf self.old.nodes term node → (self.new.nodes ≡ self.old.nodes) × (self.new.steps ≡ self.old.steps)) }
        ensures absent { IfOk result (λ term. ((k : ℕ) → IsTermOf self.old.nodes k node → ⊥) → (term ≡ length self.old.nodes) × (self.new.nodes ≡ self.old.nodes ++ node ∷ []) × (self.new.steps ≡ self.old.steps ++ Step.Term ∷ [])) }
        ensures kept { OnOk result (length self.new.nodes ≡ length self.old.nodes → (self.new.nodes ≡ self.old.nodes) × (self.new.steps ≡ self.old.steps)) }
        ensures merged { self.new.merged ≡ self.old.merged }
        ensures same_nodes { OnErr result (self.new.nodes ≡ self.old.nodes) }
        ensures same_steps { OnErr result (self.new.steps ≡ self.old.steps) }
    {
        if let Some(term) = find(&self.nodes, &node) {
            return Ok(term);
        }
        let term = self.nodes.len() as u32;
        self.layers.reserve(1)?;
        let mut classes = with_one_more(alloc, &self.classes, term)?;
        self.nodes.push(node)?;
        settle(&self.nodes, &self.classes, &mut classes);
        match moved_between(alloc, &self.classes, &classes) {
            Ok(moved) => {
                self.layers.push_reserved(Layer {
                    step: Step::Term,
                    moved,
                });
                self.classes = classes;
                Ok(term)
            }
            Err(error) => {
                self.nodes.truncate(term as usize);
                Err(error)
            }
        }
    }

    /// Makes two terms equal. Where there is no memory nothing is merged.
    pub fn merge(&mut self, alloc: Global, a: u32, b: u32) -> Result<(), Memory>
        requires left { a < length self.old.nodes }
        requires right { b < length self.old.nodes }
        ensures nodes { self.new.nodes ≡ self.old.nodes }
        ensures merged { OnOk result (self.new.merged ≡ self.old.merged ++ (a, b) ∷ []) }
        ensures steps { OnOk result (self.new.steps ≡ self.old.steps ++ Step.Merge a b ∷ []) }
        ensures same_merged { OnErr result (self.new.merged ≡ self.old.merged) }
        ensures same_steps { OnErr result (self.new.steps ≡ self.old.steps) }
        ensures weight { OnOk result ((Congruent self.old.nodes (WereMerged self.old.merged) a b → ⊥) → self.new.weight < self.old.weight) }
    {
        self.merged.reserve(1)?;
        self.layers.reserve(1)?;
        let step = Step::Merge(a, b);
        let one = self.classes[a as usize];
        let other = self.classes[b as usize];
        if one == other {
            let moved = Vec::new(alloc);
            self.merged.push_reserved((a, b));
            self.layers.push_reserved(Layer { step, moved });
            return Ok(());
        }
        let mut classes = Vec::from_slice(alloc, &self.classes)?;
        join_and_settle(&self.nodes, &self.classes, &mut classes, a, b);
        let moved = moved_between(alloc, &self.classes, &classes)?;
        self.merged.push_reserved((a, b));
        self.layers.push_reserved(Layer { step, moved });
        self.classes = classes;
        Ok(())
    }

    /// How many steps there are: the terms that were added and the pairs that were merged, in the
    /// order in which they came.
    pub fn steps(&self) -> usize
        ensures steps { result ≡ length self.now.steps }
        ensures terms { length self.now.nodes ≡ terms_of self.now.steps }
        ensures merged { self.now.merged ≡ merges_of self.now.steps }
    {
        self.layers.len()
    }

    /// The terms that the last step moved to other classes, each with the class in which it was before;
    /// none where there is no step. Terms that it left where they were are equal only where they were
    /// equal before it.
    pub fn moved(&self) -> &[Moved]
        ensures { OnlyMovedMeet self.now result.now }
    {
        match self.layers.last() {
            Some(layer) => &layer.moved,
            None => &[],
        }
    }

    /// Goes back to the first steps of this number. It takes no memory.
    pub fn undo(&mut self, mark: usize)
        requires { mark ≤ length self.old.steps }
        ensures steps { self.new.steps ≡ take mark self.old.steps }
        ensures nodes { self.new.nodes ≡ take (terms_of self.new.steps) self.old.nodes }
        ensures merged { self.new.merged ≡ merges_of self.new.steps }
    {
        while self.steps() > mark {
            self.undo_last();
        }
    }

    /// Goes back before the last step.
    fn undo_last(&mut self)
        requires { 0 < length self.old.steps }
        ensures steps { self.new.steps ≡ take (length self.old.steps - 1) self.old.steps }
        ensures nodes { self.new.nodes ≡ take (length self.new.nodes) self.old.nodes }
        ensures fewer { length self.new.nodes ≤ length self.old.nodes }
    {
        if let Some(layer) = self.layers.pop() {
            let terms = terms_before(self.nodes.len(), layer.step);
            let merges = merges_before(self.merged.len(), layer.step);
            restore(&mut self.classes, &layer.moved);
            self.classes.truncate(terms);
            self.nodes.truncate(terms);
            self.merged.truncate(merges);
        }
    }

    /// The table.
    pub fn nodes(&self) -> &[Node]
        ensures { result.now ≡ self.now.nodes }
    {
        &self.nodes
    }

    /// How many terms the table has.
    pub fn size(&self) -> u32
        ensures { result ≡ length self.now.nodes }
    {
        self.nodes.len() as u32
    }

    /// Whether two terms are equal by what was merged.
    pub fn same(&self, a: u32, b: u32) -> bool
        requires left { a < length self.now.nodes }
        requires right { b < length self.now.nodes }
        ensures { IsTrue result ↔ Congruent self.now.nodes (WereMerged self.now.merged) a b }
    {
        self.classes[a as usize] == self.classes[b as usize]
    }

    /// Derives that two terms are equal where they are so by what was merged, and answers the step;
    /// none where they are not. The log is over the same terms, and for each pair that was merged it
    /// has a step that says that the two are equal. After want of memory the log may have steps more, and is not used again.
    pub fn why(
        &self,
        alloc: Global,
        log: &mut Log,
        reasons: &[u32],
        a: u32,
        b: u32,
    ) -> Result<Option<u32>, Memory>
        requires nodes { HaveSameTerms self.now.nodes log.old.nodes }
        requires reasons { AreReasons log.old.known self.now.merged reasons.now }
        requires left { a < length self.now.nodes }
        requires right { b < length self.now.nodes }
        ensures why { IfOk result (λ w. MatchOption w (Congruent self.now.nodes (WereMerged self.now.merged) a b → ⊥) (λ s. Congruent self.now.nodes (WereMerged self.now.merged) a b × HasDerived log.new.known s (Derived.AreEqual a b))) }
        ensures continued { IfOk result (λ _. IsContinued log.old log.new) }
    {
        if !self.same(a, b) {
            return Ok(None);
        }
        let step = derive_equality(alloc, log, &self.nodes, &self.merged, reasons, a, b)?;
        Ok(Some(step))
    }
}
