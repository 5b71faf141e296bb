//! Steps that derive the least bound between two points.
//!
//! A first edge leads to the first point. From there points are reached one after the other, each over an edge that is
//! on a least path to it.

ghost use Rattle.std.specs.Prelude.{◌≡◌, ◌<◌, ◌^◌, ◌↔◌, ◌+ℤ◌, ◌≤ℤ◌, IsTrue, ℕ, ℤ, pos, Contains, length, count_by, is_none, Some, slice_get, IfOk, MatchBool, MatchOption};
ghost use Rattle.vf_table.specs.Tables.{IsInteger};
ghost use Rattle.vf_arith.specs.Paths.{Path, IsLeast, HasNegativeCycle, IsSmall};
ghost use Rattle.vf_refute.specs.Refutations.{HasDerived};
ghost use Rattle.vf_log.specs.Derivations.{IsContinued};
ghost use Rattle.vf_explain.specs.Reached.{AreReasons, IsBoundBy, IsBoundOver, AreReached, HaveStayed, LeadsOn, IsLead, IsClosed};

use std::alloc::Global;
use vf_arith::{Bounds, Edge};
use vf_base::Memory;
use vf_log::Log;
use vf_refute::Derived;

/// Whether a bound and the weight of an edge behind it are at most another bound.
fn is_over(before: i128, most: i128, behind: i128) -> bool
    requires before { IsSmall (2 ^ 125) before }
    requires most { IsSmall (2 ^ 100) most }
    ensures { IsTrue result ↔ ((before +ℤ most) ≤ℤ behind) }
{
    before + most <= behind
}

/// The step of a point, where it was reached.
fn step_of(steps: &[Option<u32>], point: u32) -> Option<u32>
    requires { point < length steps.now }
    ensures { slice_get steps.now point ≡ Some result }
{
    steps[point as usize]
}

/// The step of the point at which an edge begins, if the edge leads on from the points that were reached.
fn leads_on(bounds: &Bounds, steps: &[Option<u32>], x: u32, edge: Edge) -> Option<u32>
    requires fine { HasNegativeCycle bounds.now.edges → ⊥ }
    requires point { x < bounds.now.size }
    requires long { length steps.now ≡ bounds.now.size }
    requires from { edge.from < bounds.now.size }
    requires to { edge.to < bounds.now.size }
    requires small { IsSmall (2 ^ 100) edge.most }
    requires edge { Contains bounds.now.edges edge }
    ensures { MatchOption result (LeadsOn bounds.now.edges x steps.now edge → ⊥) (IsLead bounds.now.edges x steps.now edge) }
{
    let step = step_of(steps, edge.from)?;
    match step_of(steps, edge.to) {
        Some(_) => return None,
        None => {}
    }
    let before = bounds.bound(x, edge.from)?;
    let behind = bounds.bound(x, edge.to)?;
    if is_over(before, edge.most, behind) {
        Some(step)
    } else {
        None
    }
}

/// Reaches the point at which an edge ends, if the edge leads on, and tells whether it does. A step is given that
/// derives the edge.
fn reach_over(
    log: &mut Log,
    bounds: &Bounds,
    steps: &mut [Option<u32>],
    first: Edge,
    edge: Edge,
    reason: u32,
) -> Result<bool, Memory>
    requires fine { HasNegativeCycle bounds.now.edges → ⊥ }
    requires point { first.to < bounds.now.size }
    requires first { IsSmall (2 ^ 100) first.most }
    requires long { length steps.old ≡ bounds.now.size }
    requires from { edge.from < bounds.now.size }
    requires to { edge.to < bounds.now.size }
    requires small { IsSmall (2 ^ 100) edge.most }
    requires edge { Contains bounds.now.edges edge }
    requires reason { HasDerived log.old.known reason (Derived.AreWithin edge.from edge.to edge.most) }
    requires reached { AreReached log.old.known bounds.now.edges first steps.old }
    ensures continued { IfOk result (λ _. IsContinued log.old log.new) }
    ensures reached { IfOk result (λ _. AreReached log.new.known bounds.now.edges first steps.new) }
    ensures long { length steps.new ≡ length steps.old }
    ensures stays { IfOk result (λ _. HaveStayed steps.old steps.new) }
    ensures told { IfOk result (λ r. MatchBool r (count_by is_none steps.new < count_by is_none steps.old) ((steps.new ≡ steps.old) × (LeadsOn bounds.now.edges first.to steps.old edge → ⊥))) }
{
    match leads_on(bounds, steps, first.to, edge) {
        None => Ok(false),
        Some(step) => {
            steps[edge.to as usize] = Some(log.chain(step, reason)?);
            Ok(true)
        }
    }
}

/// The bound with a number among those that were added.
pub(crate) fn edge_at(bounds: &Bounds, i: usize) -> Edge
    requires { i < length bounds.now.edges }
    ensures found { slice_get bounds.now.edges i ≡ Some result }
    ensures one { Contains bounds.now.edges result }
    ensures from { result.from < bounds.now.size }
    ensures to { result.to < bounds.now.size }
    ensures small { IsSmall (2 ^ 100) result.most }
{
    bounds.edges()[i]
}

/// Reaches the points to which edges lead on, each edge being looked at once, and tells whether there was any.
fn reach_more(
    log: &mut Log,
    bounds: &Bounds,
    reasons: &[u32],
    steps: &mut [Option<u32>],
    first: Edge,
) -> Result<bool, Memory>
    requires fine { HasNegativeCycle bounds.now.edges → ⊥ }
    requires point { first.to < bounds.now.size }
    requires first { IsSmall (2 ^ 100) first.most }
    requires long { length steps.old ≡ bounds.now.size }
    requires reasons { AreReasons log.old.known bounds.now.edges reasons.now }
    requires reached { AreReached log.old.known bounds.now.edges first steps.old }
    ensures continued { IfOk result (λ _. IsContinued log.old log.new) }
    ensures reached { IfOk result (λ _. AreReached log.new.known bounds.now.edges first steps.new) }
    ensures long { length steps.new ≡ length steps.old }
    ensures stays { IfOk result (λ _. HaveStayed steps.old steps.new) }
    ensures told { IfOk result (λ r. MatchBool r (count_by is_none steps.new < count_by is_none steps.old) ((steps.new ≡ steps.old) × IsClosed bounds.now.edges first.to steps.old)) }
{
    let mut is_any = false;
    for i in 0..reasons.len() {
        let edge = edge_at(bounds, i);
        if reach_over(log, bounds, steps, first, edge, reasons[i])? {
            is_any = true;
        }
    }
    Ok(is_any)
}

/// Reaches a point to which there is a path.
fn reach(
    log: &mut Log,
    bounds: &Bounds,
    reasons: &[u32],
    steps: &mut [Option<u32>],
    first: Edge,
    y: u32,
) -> Result<u32, Memory>
    requires fine { HasNegativeCycle bounds.now.edges → ⊥ }
    requires point { first.to < bounds.now.size }
    requires goal { y < bounds.now.size }
    requires first { IsSmall (2 ^ 100) first.most }
    requires long { length steps.old ≡ bounds.now.size }
    requires reasons { AreReasons log.old.known bounds.now.edges reasons.now }
    requires reached { AreReached log.old.known bounds.now.edges first steps.old }
    requires begun { (s : ℕ) × (slice_get steps.old first.to ≡ Some (Some s)) }
    requires path { (c : ℤ) × IsLeast bounds.now.edges first.to y c }
    ensures continued { IfOk result (λ _. IsContinued log.old log.new) }
    ensures derived { IfOk result (λ s. IsBoundOver log.new.known bounds.now.edges first y s) }
{
    loop {
        match step_of(steps, y) {
            Some(step) => return Ok(step),
            None => {}
        }
        if !reach_more(log, bounds, reasons, steps, first)? {
            unreachable!();
        }
    }
}

/// The steps of points of which none was reached but the first.
fn begun(alloc: Global, size: u32, x: u32, step: u32) -> Result<Vec<Option<u32>>, Memory>
    requires point { x < size }
    ensures long { IfOk result (λ v. length v.items ≡ size) }
    ensures first { IfOk result (λ v. slice_get v.items x ≡ Some (Some step)) }
    ensures others { IfOk result (λ v. (k s : ℕ) → slice_get v.items k ≡ Some (Some s) → (k ≡ x) × (s ≡ step)) }
{
    let mut steps = Vec::new(alloc);
    for i in 0..size {
        steps.push(if i == x { Some(step) } else { None })?;
    }
    Ok(steps)
}

/// Derives the bound of going over a first edge, and then to a point on a least path. A step is given that derives the
/// edge.
pub(crate) fn go_over(
    alloc: Global,
    log: &mut Log,
    bounds: &Bounds,
    reasons: &[u32],
    first: Edge,
    reason: u32,
    y: u32,
) -> Result<u32, Memory>
    requires fine { HasNegativeCycle bounds.now.edges → ⊥ }
    requires point { first.to < bounds.now.size }
    requires goal { y < bounds.now.size }
    requires small { IsSmall (2 ^ 100) first.most }
    requires reasons { AreReasons log.old.known bounds.now.edges reasons.now }
    requires reason { HasDerived log.old.known reason (Derived.AreWithin first.from first.to first.most) }
    requires path { (c : ℤ) × IsLeast bounds.now.edges first.to y c }
    ensures derived { IfOk result (λ s. IsBoundOver log.new.known bounds.now.edges first y s) }
    ensures continued { IfOk result (λ _. IsContinued log.old log.new) }
{
    let mut steps = begun(alloc, bounds.size(), first.to, reason)?;
    let step = reach(log, bounds, reasons, &mut steps, first, y)?;
    Ok(step)
}

/// Derives the bound 0 from a point to itself.
fn derive_own(log: &mut Log, x: u32) -> Result<u32, Memory>
    requires { IsInteger log.old.nodes x }
    ensures derived { IfOk result (λ s. HasDerived log.new.known s (Derived.AreWithin x x (pos 0))) }
    ensures continued { IfOk result (λ _. IsContinued log.old log.new) }
{
    let equal = log.reflexive(x)?;
    let step = log.level_above(equal)?;
    Ok(step)
}

/// Derives the least bound from a point to another, and answers the step; none exactly where there is no path.
///
/// The log has for each bound that was added a step that derives it. After want of memory it may have steps more, and
/// is not used again.
pub fn why_bound(
    alloc: Global,
    log: &mut Log,
    bounds: &Bounds,
    reasons: &[u32],
    x: u32,
    y: u32,
) -> Result<Option<u32>, Memory>
    requires fine { HasNegativeCycle bounds.now.edges → ⊥ }
    requires reasons { AreReasons log.old.known bounds.now.edges reasons.now }
    requires left { x < bounds.now.size }
    requires right { y < bounds.now.size }
    requires integer { IsInteger log.old.nodes x }
    ensures why { IfOk result (λ w. MatchOption w ((c : ℤ) → Path bounds.now.edges x y c → ⊥) (λ s. IsBoundBy log.new.known bounds.now.edges x y s)) }
    ensures continued { IfOk result (λ _. IsContinued log.old log.new) }
{
    if bounds.bound(x, y).is_none() {
        return Ok(None);
    }
    let reason = derive_own(log, x)?;
    let own = Edge {
        from: x,
        to: x,
        most: 0,
    };
    let step = go_over(alloc, log, bounds, reasons, own, reason, y)?;
    Ok(Some(step))
}
