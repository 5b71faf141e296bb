//! One fact or one term more, settled.

ghost use Rattle.std.specs.Prelude.{◌≡◌, ◌<◌, ◌≤◌, ◌^◌, ◌∷◌, [], ◌++◌, ◌+◌, ℕ, ℤ, pos, List, length, All, IsTrue, IfOk, OnOk, OnErr};
ghost use Rattle.vf_table.specs.Tables.{PartsAreBelow, IsNumber};
ghost use Rattle.vf_growing.specs.Steps.{IsTermOf};
ghost use Rattle.vf_arith.specs.Paths.{HasNegativeCycle};
ghost use Rattle.vf_ground.specs.Held.{HasBoth, HasTerm, IsFine, HasSmallNumber, HasGained};
ghost use Rattle.vf_combination.specs.Exchanged.{AreFitting, HaveGoneOn, AllQuiet, HasClash, HaveFollowed, IsNew, AreBack, AreOnward};
ghost use Rattle.vf_combination.specs.Settled.{IsSettled};

use crate::exchange::settle;
use crate::gather::{add_fact, add_term};
use crate::marking::{mark, mark_moved, no_marks};
use std::alloc::Global;
use vf_arith::{Bounds, MOST_POINTS};
use vf_base::Memory;
use vf_growing::GrowingClasses;
use vf_refute::Fact;
use vf_table::Node;

/// Adds a fact and settles what it changes.
fn settle_fact(
    alloc: Global,
    classes: &mut GrowingClasses,
    bounds: &mut Bounds,
    clashed: &mut bool,
    marks: &mut [bool],
    fact: Fact,
) -> Result<(), Memory>
    requires fitting { AreFitting classes.old bounds.old }
    requires long { length marks.old ≡ length classes.old.nodes }
    requires fine { IsFine classes.old.nodes fact }
    requires quiet { (HasNegativeCycle bounds.old.edges → ⊥) → AllQuiet classes.old bounds.old clashed.old }
    ensures on { HaveGoneOn classes.old bounds.old classes.new bounds.new }
    ensures gained { IfOk result (λ _. HasGained classes.old.nodes fact classes.old.merged bounds.old.edges classes.new.merged bounds.new.edges) }
    ensures clash { IfOk result (λ _. (IsTrue clashed.old → HasClash classes.old.nodes classes.old.merged) → IsTrue clashed.new → HasClash classes.new.nodes classes.new.merged) }
    ensures quiet { IfOk result (λ _. (HasNegativeCycle bounds.new.edges → ⊥) → AllQuiet classes.new bounds.new clashed.new) }
{
    add_fact(alloc, classes, bounds, marks, fact)?;
    settle(alloc, classes, bounds, clashed, marks)?;
    Ok(())
}

/// Adds a fact to classes and bounds that agree, and brings them to agree again.
pub fn take_fact(
    alloc: Global,
    classes: &mut GrowingClasses,
    bounds: &mut Bounds,
    clashed: &mut bool,
    fact: Fact,
) -> Result<(), Memory>
    requires fitting { AreFitting classes.old bounds.old }
    requires fine { IsFine classes.old.nodes fact }
    requires quiet { (HasNegativeCycle bounds.old.edges → ⊥) → AllQuiet classes.old bounds.old clashed.old }
    ensures on { HaveGoneOn classes.old bounds.old classes.new bounds.new }
    ensures gained { IfOk result (λ _. HasGained classes.old.nodes fact classes.old.merged bounds.old.edges classes.new.merged bounds.new.edges) }
    ensures clash { IfOk result (λ _. (IsTrue clashed.old → HasClash classes.old.nodes classes.old.merged) → IsTrue clashed.new → HasClash classes.new.nodes classes.new.merged) }
    ensures quiet { IfOk result (λ _. (HasNegativeCycle bounds.new.edges → ⊥) → AllQuiet classes.new bounds.new clashed.new) }
{
    let mut marks = no_marks(alloc, classes.size())?;
    settle_fact(alloc, classes, bounds, clashed, &mut marks, fact)?;
    Ok(())
}

/// Adds the bounds of a term that is new, and settles what it changes.
fn settle_term(
    alloc: Global,
    classes: &mut GrowingClasses,
    bounds: &mut Bounds,
    clashed: &mut bool,
    marks: &mut [bool],
    term: u32,
) -> Result<(), Memory>
    requires fitting { AreFitting classes.old bounds.old }
    requires long { length marks.old ≡ length classes.old.nodes }
    requires few { length classes.old.nodes ≤ 2 ^ 24 }
    requires parts { PartsAreBelow classes.old.nodes (length classes.old.nodes) }
    requires small { All HasSmallNumber classes.old.nodes }
    requires new { IsNew classes.old bounds.old clashed.old term }
    ensures on { HaveGoneOn classes.old bounds.old classes.new bounds.new }
    ensures followed { IfOk result (λ _. HaveFollowed classes.old bounds.old clashed.old classes.new bounds.new clashed.new) }
    ensures has { IfOk result (λ _. HasTerm classes.old.nodes bounds.new.edges term) }
    ensures zero { IfOk result (λ _. (c : ℤ) (a : ℕ) → IsNumber classes.old.nodes a c → IsNumber classes.old.nodes term (pos 0) → HasBoth bounds.new.edges a term c) }
    ensures quiet { IfOk result (λ _. (HasNegativeCycle bounds.new.edges → ⊥) → AllQuiet classes.new bounds.new clashed.new) }
{
    mark_moved(marks, classes.moved());
    mark(marks, term);
    add_term(alloc, classes.nodes(), bounds, marks, term)?;
    settle(alloc, classes, bounds, clashed, marks)?;
    Ok(())
}

/// Gives bounds to a term that came to the classes, and brings both to agree again.
fn take_new(
    alloc: Global,
    classes: &mut GrowingClasses,
    bounds: &mut Bounds,
    clashed: &mut bool,
    term: u32,
) -> Result<(), Memory>
    requires fitting { AreFitting classes.old bounds.old }
    requires few { length classes.old.nodes ≤ 2 ^ 24 }
    requires parts { PartsAreBelow classes.old.nodes (length classes.old.nodes) }
    requires small { All HasSmallNumber classes.old.nodes }
    requires new { IsNew classes.old bounds.old clashed.old term }
    ensures on { HaveGoneOn classes.old bounds.old classes.new bounds.new }
    ensures followed { IfOk result (λ _. HaveFollowed classes.old bounds.old clashed.old classes.new bounds.new clashed.new) }
    ensures has { IfOk result (λ _. HasTerm classes.old.nodes bounds.new.edges term) }
    ensures zero { IfOk result (λ _. (c : ℤ) (a : ℕ) → IsNumber classes.old.nodes a c → IsNumber classes.old.nodes term (pos 0) → HasBoth bounds.new.edges a term c) }
    ensures quiet { IfOk result (λ _. (HasNegativeCycle bounds.new.edges → ⊥) → AllQuiet classes.new bounds.new clashed.new) }
{
    let mut marks = no_marks(alloc, classes.size())?;
    settle_term(alloc, classes, bounds, clashed, &mut marks, term)?;
    Ok(())
}

/// Answers the number of a term, and adds it where the table has none of its head and its parts.
fn take_term(
    alloc: Global,
    classes: &mut GrowingClasses,
    bounds: &mut Bounds,
    clashed: &mut bool,
    node: Node,
) -> Result<u32, Memory>
    requires fitting { AreFitting classes.old bounds.old }
    requires few { length classes.old.nodes < MOST_POINTS }
    requires parts { All (λ part. part < length classes.old.nodes) node.parts.items }
    requires small { HasSmallNumber node }
    requires all_parts { PartsAreBelow classes.old.nodes (length classes.old.nodes) }
    requires all_small { All HasSmallNumber classes.old.nodes }
    requires quiet { (HasNegativeCycle bounds.old.edges → ⊥) → AllQuiet classes.old bounds.old clashed.old }
    ensures onward { AreOnward classes.old bounds.old classes.new bounds.new }
    ensures number { IfOk result (λ term. IsTermOf classes.new.nodes term node) }
    ensures present { OnOk result ((term : ℕ) → IsTermOf classes.old.nodes term node → classes.new.nodes ≡ classes.old.nodes) }
    ensures absent { IfOk result (λ term. ((k : ℕ) → IsTermOf classes.old.nodes k node → ⊥) → (term ≡ length classes.old.nodes) × (classes.new.nodes ≡ classes.old.nodes ++ node ∷ [])) }
    ensures size { OnOk result (bounds.new.size ≡ length classes.new.nodes) }
    ensures settled { OnOk result ((facts : List Fact) → IsSettled classes.old.nodes facts classes.old.merged bounds.old.edges clashed.old → IsSettled classes.new.nodes facts classes.new.merged bounds.new.edges clashed.new) }
{
    let size = classes.size();
    let term = classes.add(alloc, node)?;
    if classes.size() == size {
        return Ok(term);
    }
    bounds.grow(alloc)?;
    take_new(alloc, classes, bounds, clashed, term)?;
    Ok(term)
}

/// Answers the number of a term, and adds it to classes and bounds that agree, which agree again after
/// it. Where there is no memory nothing is added.
pub fn add_settled(
    alloc: Global,
    classes: &mut GrowingClasses,
    bounds: &mut Bounds,
    clashed: &mut bool,
    node: Node,
) -> Result<u32, Memory>
    requires size { bounds.old.size ≡ length classes.old.nodes }
    requires few { length classes.old.nodes < MOST_POINTS }
    requires parts { All (λ part. part < length classes.old.nodes) node.parts.items }
    requires small { HasSmallNumber node }
    requires all_parts { PartsAreBelow classes.old.nodes (length classes.old.nodes) }
    requires all_small { All HasSmallNumber classes.old.nodes }
    requires quiet { (HasNegativeCycle bounds.old.edges → ⊥) → AllQuiet classes.old bounds.old clashed.old }
    ensures onward { OnOk result (AreOnward classes.old bounds.old classes.new bounds.new) }
    ensures number { IfOk result (λ term. IsTermOf classes.new.nodes term node) }
    ensures present { OnOk result ((term : ℕ) → IsTermOf classes.old.nodes term node → classes.new.nodes ≡ classes.old.nodes) }
    ensures absent { IfOk result (λ term. ((k : ℕ) → IsTermOf classes.old.nodes k node → ⊥) → (term ≡ length classes.old.nodes) × (classes.new.nodes ≡ classes.old.nodes ++ node ∷ [])) }
    ensures size { OnOk result (bounds.new.size ≡ length classes.new.nodes) }
    ensures settled { OnOk result ((facts : List Fact) → IsSettled classes.old.nodes facts classes.old.merged bounds.old.edges clashed.old → IsSettled classes.new.nodes facts classes.new.merged bounds.new.edges clashed.new) }
    ensures back { OnErr result (AreBack classes.old bounds.old classes.new bounds.new) }
    ensures same { OnErr result (clashed.new ≡ clashed.old) }
{
    let class_mark = classes.steps();
    let bound_mark = bounds.steps();
    let mut known = *clashed;
    match take_term(alloc, classes, bounds, &mut known, node) {
        Ok(term) => {
            *clashed = known;
            Ok(term)
        }
        Err(error) => {
            classes.undo(class_mark);
            bounds.undo(bound_mark);
            Err(error)
        }
    }
}

/// Adds a fact to classes and bounds that agree, which agree again after it. Where there is no memory
/// nothing is added.
pub fn assume_settled(
    alloc: Global,
    classes: &mut GrowingClasses,
    bounds: &mut Bounds,
    clashed: &mut bool,
    fact: Fact,
) -> Result<(), Memory>
    requires size { bounds.old.size ≡ length classes.old.nodes }
    requires fine { IsFine classes.old.nodes fact }
    requires quiet { (HasNegativeCycle bounds.old.edges → ⊥) → AllQuiet classes.old bounds.old clashed.old }
    ensures onward { OnOk result (AreOnward classes.old bounds.old classes.new bounds.new) }
    ensures nodes { OnOk result (classes.new.nodes ≡ classes.old.nodes) }
    ensures size { OnOk result (bounds.new.size ≡ bounds.old.size) }
    ensures settled { OnOk result ((facts : List Fact) → IsSettled classes.old.nodes facts classes.old.merged bounds.old.edges clashed.old → IsSettled classes.new.nodes (facts ++ fact ∷ []) classes.new.merged bounds.new.edges clashed.new) }
    ensures back { OnErr result (AreBack classes.old bounds.old classes.new bounds.new) }
    ensures same { OnErr result (clashed.new ≡ clashed.old) }
{
    let class_mark = classes.steps();
    let bound_mark = bounds.steps();
    let mut known = *clashed;
    match take_fact(alloc, classes, bounds, &mut known, fact) {
        Ok(()) => {
            *clashed = known;
            Ok(())
        }
        Err(error) => {
            classes.undo(class_mark);
            bounds.undo(bound_mark);
            Err(error)
        }
    }
}
