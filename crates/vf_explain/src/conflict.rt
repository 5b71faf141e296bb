//! Steps that derive that a point is below itself.
//!
//! The bounds are added anew, one after the other, up to the first that closes a cycle below 0.

ghost use Rattle.std.specs.Prelude.{◌≡◌, ◌<◌, ◌^◌, ◌↔◌, ◌+ℤ◌, ◌≤ℤ◌, ◌<ℤ◌, ℕ, ℤ, pos, Contains, IsTrue, IfOk, MatchBool, MatchOption};
ghost use Rattle.vf_arith.specs.Paths.{Path, IsLeast, HasNegativeCycle, IsSmall};
ghost use Rattle.vf_refute.specs.Refutations.{HasDerived};
ghost use Rattle.vf_log.specs.Derivations.{IsContinued};
ghost use Rattle.vf_explain.specs.Reached.{AreReasons, IsBelowItself, DoesClose, StaysOpen};

use crate::bound::{edge_at, go_over};
use std::alloc::Global;
use vf_arith::{Bounds, Edge};
use vf_base::Memory;
use vf_log::Log;
use vf_refute::Derived;

/// Whether two weights are together below 0.
fn are_below(back: i128, most: i128) -> bool
    requires back { IsSmall (2 ^ 125) back }
    requires most { IsSmall (2 ^ 100) most }
    ensures { IsTrue result ↔ ((back +ℤ most) <ℤ pos 0) }
{
    back + most < 0
}

/// Whether an edge closes a cycle below 0 with the bounds that are there.
fn closes(bounds: &Bounds, edge: Edge) -> bool
    requires fine { HasNegativeCycle bounds.now.edges → ⊥ }
    requires from { edge.from < bounds.now.size }
    requires to { edge.to < bounds.now.size }
    requires small { IsSmall (2 ^ 100) edge.most }
    ensures { MatchBool result (DoesClose bounds.now.edges edge) (StaysOpen bounds.now.edges edge) }
{
    match bounds.bound(edge.to, edge.from) {
        Some(back) => are_below(back, edge.most),
        None => false,
    }
}

/// Derives the cycle that an edge closes.
fn derive_cycle(
    alloc: Global,
    log: &mut Log,
    bounds: &Bounds,
    reasons: &[u32],
    edge: Edge,
    reason: u32,
) -> Result<u32, Memory>
    requires fine { HasNegativeCycle bounds.now.edges → ⊥ }
    requires reasons { AreReasons log.old.known bounds.now.edges reasons.now }
    requires from { edge.from < bounds.now.size }
    requires to { edge.to < bounds.now.size }
    requires small { IsSmall (2 ^ 100) edge.most }
    requires closes { DoesClose bounds.now.edges edge }
    requires reason { HasDerived log.old.known reason (Derived.AreWithin edge.from edge.to edge.most) }
    ensures below { IfOk result (λ s. IsBelowItself log.new.known s) }
    ensures continued { IfOk result (λ _. IsContinued log.old log.new) }
{
    let step = go_over(alloc, log, bounds, reasons, edge, reason, edge.from)?;
    Ok(step)
}

/// Derives that a point is below itself, and answers the step; none exactly where no cycle of bounds is below 0.
///
/// The log has for each bound that was added a step that derives it. After want of memory it may have steps more, and
/// is not used again.
pub fn why_conflict(
    alloc: Global,
    log: &mut Log,
    bounds: &Bounds,
    reasons: &[u32],
) -> Result<Option<u32>, Memory>
    requires reasons { AreReasons log.old.known bounds.now.edges reasons.now }
    ensures why { IfOk result (λ w. MatchOption w (HasNegativeCycle bounds.now.edges → ⊥) (λ s. HasNegativeCycle bounds.now.edges × IsBelowItself log.new.known s)) }
    ensures continued { IfOk result (λ _. IsContinued log.old log.new) }
{
    if !bounds.conflict() {
        return Ok(None);
    }
    let mut before = Bounds::new(alloc, bounds.size())?;
    for i in 0..reasons.len() {
        let edge = edge_at(bounds, i);
        if closes(&before, edge) {
            let step = derive_cycle(alloc, log, &before, &reasons[..i], edge, reasons[i])?;
            return Ok(Some(step));
        }
        before.add(alloc, edge)?;
    }
    unreachable!()
}
