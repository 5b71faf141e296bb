//! Classes and bounds beside a log.

ghost use Rattle.std.specs.Prelude.{◌≡◌, ◌<◌, ◌^◌, ◌≤ℤ◌, ℤ, pos, length, Contains, IfOk};
ghost use Rattle.vf_congruence.specs.Congruence.{Congruent, WereMerged};
ghost use Rattle.vf_arith.specs.Paths.{Path, HasNegativeCycle, IsSmall};
ghost use Rattle.vf_refute.specs.Refutations.{HasDerived};
ghost use Rattle.vf_ground.specs.Held.{HasBoth};
ghost use Rattle.vf_refuting.specs.Runs.{IsRun, GoesOn, HaveDerivedBoth};

use std::alloc::Global;
use vf_arith::{Bounds, Edge};
use vf_base::Memory;
use vf_congruence::Classes;
use vf_log::Log;
use vf_refute::Derived;

/// Classes and bounds, with the log of the steps that derive what they were given.
#[derive(Drop)]
pub(crate) struct Run {
    pub(crate) log: Log,
    pub(crate) classes: Classes,
    pub(crate) bounds: Bounds,
    /// For each pair that was merged, the step that derives that the two are equal.
    pub(crate) equal: Vec<u32>,
    /// For each bound that was added, the step that derives it.
    pub(crate) within: Vec<u32>,
}

/// Two steps that bound a difference, from above and from below.
#[derive(Clone, Copy, Debug)]
pub(crate) struct Both {
    pub(crate) above: u32,
    pub(crate) below: u32,
}

/// Makes two terms equal that a step derives to be so.
#[tactic(auto, using(crate::proofs::Running::merge_goes))]
pub(crate) fn merge(run: &mut Run, a: u32, b: u32, reason: u32) -> Result<(), Memory>
    requires run { IsRun run.old }
    requires left { a < length run.old.classes.nodes }
    requires right { b < length run.old.classes.nodes }
    requires reason { HasDerived run.old.log.known reason (Derived.AreEqual a b) }
    ensures goes { IfOk result (λ _. GoesOn run.old run.new) }
    ensures bounds { IfOk result (λ _. run.new.bounds ≡ run.old.bounds) }
    ensures merged { IfOk result (λ _. WereMerged run.new.classes.merged a b) }
    ensures weight { IfOk result (λ _. (Congruent run.old.classes.nodes (WereMerged run.old.classes.merged) a b → ⊥) → run.new.classes.weight < run.old.classes.weight) }
{
    run.classes.merge(a, b)?;
    run.equal.push(reason)?;
    Ok(())
}

/// Adds a bound that a step derives.
#[tactic(auto, using(crate::proofs::Running::add_goes))]
pub(crate) fn add(alloc: Global, run: &mut Run, edge: Edge, reason: u32) -> Result<(), Memory>
    requires run { IsRun run.old }
    requires from { edge.from < length run.old.classes.nodes }
    requires to { edge.to < length run.old.classes.nodes }
    requires small { IsSmall (2 ^ 100) edge.most }
    requires reason { HasDerived run.old.log.known reason (Derived.AreWithin edge.from edge.to edge.most) }
    ensures goes { IfOk result (λ _. GoesOn run.old run.new) }
    ensures log { IfOk result (λ _. run.new.log ≡ run.old.log) }
    ensures classes { IfOk result (λ _. run.new.classes ≡ run.old.classes) }
    ensures added { IfOk result (λ _. Contains run.new.bounds.edges edge) }
    ensures weight { IfOk result (λ _. (HasNegativeCycle run.new.bounds.edges → ⊥) → edge.most ≤ℤ pos 0 → ((c : ℤ) → c ≤ℤ pos 0 → Path run.old.bounds.edges edge.from edge.to c → ⊥) → run.new.bounds.weight < run.old.bounds.weight) }
{
    run.bounds.add(alloc, edge)?;
    run.within.push(reason)?;
    Ok(())
}

/// Adds the two bounds of a difference that steps derive.
#[tactic(auto, using(crate::proofs::Running::goes_more))]
pub(crate) fn add_both(
    alloc: Global,
    run: &mut Run,
    x: u32,
    y: u32,
    by: i128,
    reasons: Both,
) -> Result<(), Memory>
    requires run { IsRun run.old }
    requires left { x < length run.old.classes.nodes }
    requires right { y < length run.old.classes.nodes }
    requires small { IsSmall (2 ^ 100) by }
    requires reasons { HaveDerivedBoth run.old.log.known x y by reasons.above reasons.below }
    ensures goes { IfOk result (λ _. GoesOn run.old run.new) }
    ensures has { IfOk result (λ _. HasBoth run.new.bounds.edges x y by) }
{
    let above = Edge {
        from: x,
        to: y,
        most: by,
    };
    add(alloc, run, above, reasons.above)?;
    let below = Edge {
        from: y,
        to: x,
        most: -by,
    };
    add(alloc, run, below, reasons.below)?;
    Ok(())
}
