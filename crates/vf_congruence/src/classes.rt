//! Classes of equal terms.

ghost use Rattle.std.specs.Prelude.{◌≡◌, ℕ, ◌<◌, ◌^◌, ◌∷◌, [], ◌++◌, ◌↔◌, length, IsTrue, IfOk, OnOk, OnErr, MatchOption, slice_index};
ghost use Rattle.vf_table.specs.Tables.{PartsAreBelow};
ghost use Rattle.vf_refute.specs.Refutations.{HasDerived};
ghost use Rattle.vf_log.specs.Copies.{HaveSameTerms};
ghost use Rattle.vf_log.specs.Derivations.{IsContinued};
ghost use Rattle.vf_congruence.specs.Congruence.{Congruent, WereMerged};
ghost use Rattle.vf_congruence.specs.Explained.{AreReasons};

use crate::explaining::{derive_each, derive_from};
use crate::joining::{join_and_settle, settle};
use std::alloc::Global;
use std::marker::Model;
use vf_base::Memory;
use vf_log::Log;
use vf_refute::Derived;
use vf_table::Node;

/// Classes of equal terms of a table: those of the least congruence that has what was merged.
#[derive(Drop)]
pub struct Classes {
    nodes: Vec<Node>,
    merged: Vec<(u32, u32)>,
    classes: Vec<u32>,
}

impl Model for Classes {
    ghost use Rattle.std.specs.Prelude.{sum};
    ghost use Rattle.vf_congruence.specs.Congruence.{Merges};

    ghost Value = { Merges };

    ghost view = { λ c. record { nodes = c.nodes.items; merged = c.merged.items; weight = sum c.classes.items } };

    ghost use Rattle.vf_congruence.specs.Meeting.{IsLeast};

    ghost invariant = { λ c. IsLeast c.nodes.items c.merged.items c.classes.items };
}

/// The numbers below a count, in order: each term in a class of its own.
fn own_classes(alloc: Global, count: u32) -> Result<Vec<u32>, Memory>
    ensures { IfOk result (λ v. (length v.items ≡ count) × ((k : ℕ) → k < count → slice_index v.items k ≡ k)) }
{
    let mut classes = Vec::new(alloc);
    for i in 0..count {
        classes.push(i)?;
    }
    Ok(classes)
}

/// Derives that two terms are equal that are so by what was merged, and answers the step. The log is
/// over the same terms, and for each pair that was merged it has a step that says that the two are
/// equal.
pub fn derive_equality(
    alloc: Global,
    log: &mut Log,
    nodes: &[Node],
    merged: &[(u32, u32)],
    reasons: &[u32],
    a: u32,
    b: u32,
) -> Result<u32, Memory>
    requires nodes { HaveSameTerms nodes.now log.old.nodes }
    requires parts { PartsAreBelow nodes.now (length nodes.now) }
    requires few { length nodes.now < 2 ^ 32 }
    requires terms { (x y : ℕ) → WereMerged merged.now x y → (x < length nodes.now) × (y < length nodes.now) }
    requires reasons { AreReasons log.old.known merged.now reasons.now }
    requires left { a < length nodes.now }
    requires right { b < length nodes.now }
    requires equal { Congruent nodes.now (WereMerged merged.now) a b }
    ensures continued { IfOk result (λ _. IsContinued log.old log.new) }
    ensures derived { IfOk result (λ s. HasDerived log.new.known s (Derived.AreEqual a b)) }
{
    let count = nodes.len() as u32;
    let mut labels = own_classes(alloc, count)?;
    let mut steps = derive_each(alloc, log, count)?;
    let step = derive_from(
        alloc,
        log,
        nodes,
        &mut labels,
        &mut steps,
        merged,
        reasons,
        a,
        b,
    )?;
    Ok(step)
}

impl Classes {
    /// The classes of a table of which nothing was merged.
    pub fn new(alloc: Global, nodes: Vec<Node>) -> Result<Classes, Memory>
        requires few { length nodes.items < 2 ^ 32 }
        requires parts { PartsAreBelow nodes.items (length nodes.items) }
        ensures { IfOk result (λ c. (c.nodes ≡ nodes.items) × (c.merged ≡ [])) }
    {
        let mut classes = own_classes(alloc, nodes.len() as u32)?;
        settle(&nodes, &[], &mut classes);
        Ok(Classes {
            nodes,
            merged: Vec::new(alloc),
            classes,
        })
    }

    /// Makes two terms equal. Where there is no memory nothing is merged.
    pub fn merge(&mut self, a: u32, b: u32) -> Result<(), Memory>
        requires left { a < length self.old.nodes }
        requires right { b < length self.old.nodes }
        ensures nodes { self.new.nodes ≡ self.old.nodes }
        ensures merged { OnOk result (self.new.merged ≡ self.old.merged ++ (a, b) ∷ []) }
        ensures unchanged { OnErr result (self.new.merged ≡ self.old.merged) }
        ensures weight { OnOk result ((Congruent self.old.nodes (WereMerged self.old.merged) a b → ⊥) → self.new.weight < self.old.weight) }
    {
        let pair = (a, b);
        let one = self.classes[a as usize];
        let other = self.classes[b as usize];
        if one == other {
            self.merged.push(pair)?;
            return Ok(());
        }
        let settled = Vec::from_slice(*self.classes.allocator(), &self.classes)?;
        self.merged.push(pair)?;
        join_and_settle(&self.nodes, &settled, &mut self.classes, a, b);
        Ok(())
    }

    /// The table.
    pub fn nodes(&self) -> &[Node]
        ensures { result.now ≡ self.now.nodes }
    {
        &self.nodes
    }

    /// How many terms the table has.
    pub fn size(&self) -> u32
        ensures { result ≡ length self.now.nodes }
    {
        self.nodes.len() as u32
    }

    /// Whether two terms are equal by what was merged.
    pub fn same(&self, a: u32, b: u32) -> bool
        requires left { a < length self.now.nodes }
        requires right { b < length self.now.nodes }
        ensures { IsTrue result ↔ Congruent self.now.nodes (WereMerged self.now.merged) a b }
    {
        self.classes[a as usize] == self.classes[b as usize]
    }

    /// Derives that two terms are equal where they are so by what was merged, and answers the step;
    /// none where they are not. The log is over the same terms, and for each pair that was merged it
    /// has a step that says that the two are equal. After want of memory the log may have steps more, and is not used again.
    pub fn why(
        &self,
        alloc: Global,
        log: &mut Log,
        reasons: &[u32],
        a: u32,
        b: u32,
    ) -> Result<Option<u32>, Memory>
        requires nodes { HaveSameTerms self.now.nodes log.old.nodes }
        requires reasons { AreReasons log.old.known self.now.merged reasons.now }
        requires left { a < length self.now.nodes }
        requires right { b < length self.now.nodes }
        ensures why { IfOk result (λ w. MatchOption w (Congruent self.now.nodes (WereMerged self.now.merged) a b → ⊥) (λ s. Congruent self.now.nodes (WereMerged self.now.merged) a b × HasDerived log.new.known s (Derived.AreEqual a b))) }
        ensures continued { IfOk result (λ _. IsContinued log.old log.new) }
    {
        if !self.same(a, b) {
            return Ok(None);
        }
        let step = derive_equality(alloc, log, &self.nodes, &self.merged, reasons, a, b)?;
        Ok(Some(step))
    }
}
