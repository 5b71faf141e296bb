//! Marks of the terms at which something changed.

ghost use Rattle.std.specs.Prelude.{◌≡◌, ◌<◌, ◌+◌, ◌^◌, ◌++◌, ◌∷◌, [], ℕ, pos, ◌≤ℤ◌, ℤ, length, Contains, ◌↔◌, IsTrue, IfOk, OnOk, neg_ℤ};
ghost use Rattle.vf_congruence.specs.Congruence.{Congruent, WereMerged};
ghost use Rattle.vf_growing.specs.Histories.{IsMoved};
ghost use Rattle.vf_arith.specs.Paths.{Path, IsSmall, HasNegativeCycle};
ghost use Rattle.vf_ground.specs.Held.{edge};
ghost use Rattle.vf_combination.specs.Exchanged.{IsUnmarked, AreOfSteps, AreBoundsOfSteps, HaveClassesGoneOn, HaveBoundsGoneOn, OnlyMarkedMeet, IsSqueezed, OnlyMarkedNear};

use std::alloc::Global;
use vf_arith::{Bounds, Edge, Saved};
use vf_base::Memory;
use vf_ground::are_level;
use vf_growing::{GrowingClasses, Moved};

/// Marks for terms of this number, of which none is set.
pub fn no_marks(alloc: Global, count: u32) -> Result<Vec<bool>, Memory>
    ensures long { IfOk result (λ marks. length marks.items ≡ count) }
    ensures none { IfOk result (λ marks. (x : ℕ) → x < count → IsUnmarked marks.items x) }
{
    let mut marks = Vec::new(alloc);
    for _ in 0..count {
        marks.push(false)?;
    }
    Ok(marks)
}

/// Marks a term, if it is one of those that can be marked.
pub fn mark(marks: &mut [bool], term: u32)
    ensures { (x : ℕ) → IsUnmarked marks.new x → IsUnmarked marks.old x × (x ≡ term → ⊥) }
{
    if (term as usize) < marks.len() {
        marks[term as usize] = true;
    }
}

/// Marks the terms that were moved.
pub fn mark_moved(marks: &mut [bool], moved: &[Moved])
    ensures { (x : ℕ) → IsUnmarked marks.new x → IsUnmarked marks.old x × (IsMoved moved.now x → ⊥) }
{
    for m in moved {
        mark(marks, m.term);
    }
}

/// Whether the points of a distance are within 0 both ways.
fn is_squeezed(bounds: &Bounds, saved: &Saved) -> bool
    requires fine { HasNegativeCycle bounds.now.edges → ⊥ }
    ensures { IsTrue result ↔ IsSqueezed bounds.now saved.now }
{
    let size = bounds.size();
    saved.x < size && saved.y < size && are_level(bounds, saved.x, saved.y)
}

/// Marks the first point of a distance where its points are within 0 both ways.
fn mark_if_squeezed(bounds: &Bounds, marks: &mut [bool], saved: &Saved)
    requires fine { HasNegativeCycle bounds.now.edges → ⊥ }
    ensures { (x : ℕ) → IsUnmarked marks.new x → IsUnmarked marks.old x × (IsSqueezed bounds.now saved.now → saved.now.x ≡ x → ⊥) }
{
    if is_squeezed(bounds, saved) {
        mark(marks, saved.x);
    }
}

/// Marks the first points of some distances: of those whose points are within 0 both ways.
fn mark_squeezed(bounds: &Bounds, marks: &mut [bool], saved: &[Saved])
    requires fine { HasNegativeCycle bounds.now.edges → ⊥ }
    ensures { (x : ℕ) → IsUnmarked marks.new x → IsUnmarked marks.old x × ((s : Saved) → Contains saved.now s → IsSqueezed bounds.now s → s.x ≡ x → ⊥) }
{
    for s in saved {
        mark_if_squeezed(bounds, marks, s);
    }
}

/// Makes two terms equal, and marks the terms that come into other classes.
pub fn merge_marking(
    alloc: Global,
    classes: &mut GrowingClasses,
    marks: &mut [bool],
    a: u32,
    b: u32,
) -> Result<(), Memory>
    requires of_steps { AreOfSteps classes.old }
    requires long { length marks.old ≡ length classes.old.nodes }
    requires left { a < length classes.old.nodes }
    requires right { b < length classes.old.nodes }
    ensures on { HaveClassesGoneOn classes.old classes.new }
    ensures merged { OnOk result (classes.new.merged ≡ classes.old.merged ++ (a, b) ∷ []) }
    ensures marked { OnOk result (OnlyMarkedMeet classes.old marks.old classes.new marks.new) }
    ensures weight { OnOk result ((Congruent classes.old.nodes (WereMerged classes.old.merged) a b → ⊥) → classes.new.weight < classes.old.weight) }
{
    classes.merge(alloc, a, b)?;
    mark_moved(marks, classes.moved());
    Ok(())
}

/// Adds a bound, and marks the terms that it brings within 0 of another one both ways.
pub fn bound_marking(
    alloc: Global,
    bounds: &mut Bounds,
    marks: &mut [bool],
    edge: Edge,
) -> Result<(), Memory>
    requires of_steps { AreBoundsOfSteps bounds.old }
    requires long { length marks.old ≡ bounds.old.size }
    requires from { edge.from < bounds.old.size }
    requires to { edge.to < bounds.old.size }
    requires small { IsSmall (2 ^ 100) edge.most }
    ensures on { HaveBoundsGoneOn bounds.old bounds.new }
    ensures edges { OnOk result (bounds.new.edges ≡ bounds.old.edges ++ edge ∷ []) }
    ensures marked { OnOk result (OnlyMarkedNear bounds.old marks.old bounds.new marks.new) }
    ensures weight { OnOk result ((HasNegativeCycle bounds.new.edges → ⊥) → edge.most ≤ℤ pos 0 → ((c : ℤ) → c ≤ℤ pos 0 → Path bounds.old.edges edge.from edge.to c → ⊥) → bounds.new.weight < bounds.old.weight) }
{
    bounds.add(alloc, edge)?;
    if !bounds.conflict() {
        mark_squeezed(bounds, marks, bounds.shortened());
    }
    Ok(())
}

/// Adds a bound and the opposite one, and marks the terms that they bring within 0 of another one both
/// ways.
pub fn both_marking(
    alloc: Global,
    bounds: &mut Bounds,
    marks: &mut [bool],
    x: u32,
    y: u32,
    most: i128,
) -> Result<(), Memory>
    requires of_steps { AreBoundsOfSteps bounds.old }
    requires long { length marks.old ≡ bounds.old.size }
    requires left { x < bounds.old.size }
    requires right { y < bounds.old.size }
    requires small { IsSmall (2 ^ 100) most }
    ensures on { HaveBoundsGoneOn bounds.old bounds.new }
    ensures edges { OnOk result (bounds.new.edges ≡ (bounds.old.edges ++ edge x y most ∷ []) ++ edge y x (neg_ℤ most) ∷ []) }
    ensures marked { OnOk result (OnlyMarkedNear bounds.old marks.old bounds.new marks.new) }
{
    bound_marking(
        alloc,
        bounds,
        marks,
        Edge {
            from: x,
            to: y,
            most,
        },
    )?;
    bound_marking(
        alloc,
        bounds,
        marks,
        Edge {
            from: y,
            to: x,
            most: -most,
        },
    )?;
    Ok(())
}
