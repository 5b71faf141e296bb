//! The exchange of equalities and bounds, with the steps that derive them.

ghost use Rattle.std.specs.Prelude.{◌≡◌, ◌<◌, ◌+◌, ℕ, ℤ, neg_ℤ, pos, length, IsTrue, IsFalse, IfOk};
ghost use Rattle.vf_table.specs.Tables.{IsInteger};
ghost use Rattle.vf_congruence.specs.Congruence.{Congruent, WereMerged};
ghost use Rattle.vf_arith.specs.Paths.{Path, HasNegativeCycle};
ghost use Rattle.vf_refute.specs.Refutations.{HasDerived};
ghost use Rattle.vf_log.specs.Derivations.{IsContinued};
ghost use Rattle.vf_explain.specs.Reached.{AreReasons, IsBoundBy};
ghost use Rattle.vf_ground.specs.Held.{IsNear, Agree, AllAgree, Lacks};
ghost use Rattle.vf_refuting.specs.Runs.{IsRun, GoesOn, HaveDerivedBoth};

use crate::run::{Both, Run, add, merge};
use std::alloc::Global;
use vf_arith::{Bounds, Edge};
use vf_base::Memory;
use vf_explain::why_bound;
use vf_ground::{Lack, lack_at};
use vf_log::Log;
use vf_refute::Derived;

/// Derives the least bound between two points to the second of which a path leads.
fn derive_way(
    alloc: Global,
    log: &mut Log,
    bounds: &Bounds,
    reasons: &[u32],
    x: u32,
    y: u32,
) -> Result<u32, Memory>
    requires fine { HasNegativeCycle bounds.now.edges → ⊥ }
    requires reasons { AreReasons log.old.known bounds.now.edges reasons.now }
    requires left { x < bounds.now.size }
    requires right { y < bounds.now.size }
    requires integer { IsInteger log.old.nodes x }
    requires path { (c : ℤ) × Path bounds.now.edges x y c }
    ensures derived { IfOk result (λ s. IsBoundBy log.new.known bounds.now.edges x y s) }
    ensures continued { IfOk result (λ _. IsContinued log.old log.new) }
{
    match why_bound(alloc, log, bounds, reasons, x, y)? {
        Some(step) => Ok(step),
        None => unreachable!(),
    }
}

/// Derives the bounds of a difference that bounds say both ways.
pub(crate) fn derive_both(
    alloc: Global,
    log: &mut Log,
    bounds: &Bounds,
    reasons: &[u32],
    x: u32,
    y: u32,
) -> Result<Both, Memory>
    requires fine { HasNegativeCycle bounds.now.edges → ⊥ }
    requires reasons { AreReasons log.old.known bounds.now.edges reasons.now }
    requires left { x < bounds.now.size }
    requires right { y < bounds.now.size }
    requires left_integer { IsInteger log.old.nodes x }
    requires right_integer { IsInteger log.old.nodes y }
    requires near { (c : ℤ) × IsNear bounds.now.edges x y c × IsNear bounds.now.edges y x (neg_ℤ c) }
    ensures derived { IfOk result (λ b. (c : ℤ) → IsNear bounds.now.edges x y c → IsNear bounds.now.edges y x (neg_ℤ c) → HaveDerivedBoth log.new.known x y c b.above b.below) }
    ensures continued { IfOk result (λ _. IsContinued log.old log.new) }
{
    let above = derive_way(alloc, log, bounds, reasons, x, y)?;
    let below = derive_way(alloc, log, bounds, reasons, y, x)?;
    Ok(Both { above, below })
}

/// Derives that two terms of one class are equal.
pub(crate) fn derive_equal(alloc: Global, run: &mut Run, x: u32, y: u32) -> Result<u32, Memory>
    requires run { IsRun run.old }
    requires left { x < length run.old.classes.nodes }
    requires right { y < length run.old.classes.nodes }
    requires equal { Congruent run.old.classes.nodes (WereMerged run.old.classes.merged) x y }
    ensures goes { IfOk result (λ _. GoesOn run.old run.new) }
    ensures derived { IfOk result (λ s. HasDerived run.new.log.known s (Derived.AreEqual x y)) }
    ensures classes { IfOk result (λ _. run.new.classes ≡ run.old.classes) }
    ensures bounds { IfOk result (λ _. run.new.bounds ≡ run.old.bounds) }
{
    match run.classes.why(alloc, &mut run.log, &run.equal, x, y)? {
        Some(step) => Ok(step),
        None => unreachable!(),
    }
}

/// Gives the bound 0 between two terms of one class.
fn supply_bound(alloc: Global, run: &mut Run, x: u32, y: u32) -> Result<(), Memory>
    requires run { IsRun run.old }
    requires left { x < length run.old.classes.nodes }
    requires right { y < length run.old.classes.nodes }
    requires task { Lacks run.old.classes.nodes run.old.classes.merged run.old.bounds.edges x y Lack.OfBound }
    ensures goes { IfOk result (λ _. GoesOn run.old run.new) }
    ensures classes { IfOk result (λ _. run.new.classes ≡ run.old.classes) }
    ensures falls { IfOk result (λ _. (HasNegativeCycle run.new.bounds.edges → ⊥) → run.new.bounds.weight < run.old.bounds.weight) }
{
    let equal = derive_equal(alloc, run, x, y)?;
    let reason = run.log.level_above(equal)?;
    let edge = Edge {
        from: x,
        to: y,
        most: 0,
    };
    add(alloc, run, edge, reason)?;
    Ok(())
}

/// Makes two terms equal that are within 0 both ways.
fn supply_equality(alloc: Global, run: &mut Run, x: u32, y: u32) -> Result<(), Memory>
    requires run { IsRun run.old }
    requires fine { HasNegativeCycle run.old.bounds.edges → ⊥ }
    requires left { x < length run.old.classes.nodes }
    requires right { y < length run.old.classes.nodes }
    requires task { Lacks run.old.classes.nodes run.old.classes.merged run.old.bounds.edges x y Lack.OfEquality }
    ensures goes { IfOk result (λ _. GoesOn run.old run.new) }
    ensures bounds { IfOk result (λ _. run.new.bounds ≡ run.old.bounds) }
    ensures falls { IfOk result (λ _. run.new.classes.weight < run.old.classes.weight) }
{
    let both = derive_both(alloc, &mut run.log, &run.bounds, &run.within, x, y)?;
    let reason = run.log.squeezed(both.above, both.below)?;
    merge(run, x, y, reason)?;
    Ok(())
}

/// Gives classes and bounds what they lack at two terms, and tells whether they lacked anything.
fn exchange_at(alloc: Global, run: &mut Run, x: u32, y: u32) -> Result<bool, Memory>
    requires run { IsRun run.old }
    requires fine { HasNegativeCycle run.old.bounds.edges → ⊥ }
    requires left { x < length run.old.classes.nodes }
    requires right { y < length run.old.classes.nodes }
    ensures goes { IfOk result (λ _. GoesOn run.old run.new) }
    ensures agree { IfOk result (λ given. IsFalse given → Agree run.old.classes.nodes run.old.classes.merged run.old.bounds.edges x y) }
    ensures same { IfOk result (λ given. IsFalse given → run.new ≡ run.old) }
    ensures falls { IfOk result (λ given. IsTrue given → (HasNegativeCycle run.new.bounds.edges → ⊥) → run.new.classes.weight + run.new.bounds.weight < run.old.classes.weight + run.old.bounds.weight) }
{
    match lack_at(&run.classes, &run.bounds, x, y) {
        Lack::Nothing => Ok(false),
        Lack::OfBound => {
            supply_bound(alloc, run, x, y)?;
            Ok(true)
        }
        Lack::OfEquality => {
            supply_equality(alloc, run, x, y)?;
            Ok(true)
        }
    }
}

/// Gives classes and bounds what they lack at a term and each other one, up to a cycle below 0, and
/// tells whether they lacked anything.
fn exchange_beside(alloc: Global, run: &mut Run, x: u32) -> Result<bool, Memory>
    requires run { IsRun run.old }
    requires fine { HasNegativeCycle run.old.bounds.edges → ⊥ }
    requires left { x < length run.old.classes.nodes }
    ensures goes { IfOk result (λ _. GoesOn run.old run.new) }
    ensures agree { IfOk result (λ given. IsFalse given → (y : ℕ) → y < length run.old.classes.nodes → Agree run.old.classes.nodes run.old.classes.merged run.old.bounds.edges x y) }
    ensures same { IfOk result (λ given. IsFalse given → run.new ≡ run.old) }
    ensures falls { IfOk result (λ given. IsTrue given → (HasNegativeCycle run.new.bounds.edges → ⊥) → run.new.classes.weight + run.new.bounds.weight < run.old.classes.weight + run.old.bounds.weight) }
{
    let mut given = false;
    for y in 0..run.classes.size() {
        if exchange_at(alloc, run, x, y)? {
            given = true;
            if run.bounds.conflict() {
                return Ok(true);
            }
        }
    }
    Ok(given)
}

/// Goes once over each two terms and gives classes and bounds what they lack there, up to a cycle
/// below 0, and tells whether they lacked anything.
fn exchange_once(alloc: Global, run: &mut Run) -> Result<bool, Memory>
    requires run { IsRun run.old }
    requires fine { HasNegativeCycle run.old.bounds.edges → ⊥ }
    ensures goes { IfOk result (λ _. GoesOn run.old run.new) }
    ensures agree { IfOk result (λ given. IsFalse given → AllAgree run.old.classes.nodes run.old.classes.merged run.old.bounds.edges) }
    ensures same { IfOk result (λ given. IsFalse given → run.new ≡ run.old) }
    ensures falls { IfOk result (λ given. IsTrue given → (HasNegativeCycle run.new.bounds.edges → ⊥) → run.new.classes.weight + run.new.bounds.weight < run.old.classes.weight + run.old.bounds.weight) }
{
    let mut given = false;
    for x in 0..run.classes.size() {
        if exchange_beside(alloc, run, x)? {
            given = true;
            if run.bounds.conflict() {
                return Ok(true);
            }
        }
    }
    Ok(given)
}

/// Brings classes and bounds to agree, or to a cycle below 0.
pub(crate) fn exchange(alloc: Global, run: &mut Run) -> Result<(), Memory>
    requires run { IsRun run.old }
    ensures goes { IfOk result (λ _. GoesOn run.old run.new) }
    ensures settled { IfOk result (λ _. (HasNegativeCycle run.new.bounds.edges → ⊥) → AllAgree run.new.classes.nodes run.new.classes.merged run.new.bounds.edges) }
{
    if run.bounds.conflict() {
        return Ok(());
    }
    while exchange_once(alloc, run)? {
        if run.bounds.conflict() {
            return Ok(());
        }
    }
    Ok(())
}
