//! What facts and terms give.

ghost use Rattle.std.specs.Prelude.{◌≡◌, ◌<◌, ◌^◌, ◌↔◌, ℕ, ℤ, pos, Some, slice_get, length, All, Contains, IsTrue, IfOk, MatchOption};
ghost use Rattle.vf_table.specs.Tables.{PartsAreBelow, IsNumber, IsPlus};
ghost use Rattle.vf_arith.specs.Paths.{IsSmall};
ghost use Rattle.vf_refute.specs.Refutations.{IsOffset};
ghost use Rattle.vf_log.specs.Derivations.{IsContinued};
ghost use Rattle.vf_ground.specs.Held.{HasBoth, HasFact, HasTerm, IsFine, HasSmallNumber};
ghost use Rattle.vf_refuting.specs.Runs.{IsRun, GoesOn, HaveDerivedBoth};

use crate::run::{Both, Run, add, add_both, merge};
use std::alloc::Global;
use vf_arith::Edge;
use vf_base::Memory;
use vf_log::Log;
use vf_refute::Fact;
use vf_table::{is_zero, number_at, shift_at};

/// Gives an equality that is a fact.
fn add_equality(run: &mut Run, i: u32, a: u32, b: u32) -> Result<(), Memory>
    requires run { IsRun run.old }
    requires fact { slice_get run.old.log.facts i ≡ Some (Fact.Equal a b) }
    requires fine { IsFine run.old.log.nodes (Fact.Equal a b) }
    ensures goes { IfOk result (λ _. GoesOn run.old run.new) }
    ensures has { IfOk result (λ _. HasFact run.new.classes.merged run.new.bounds.edges (Fact.Equal a b)) }
{
    let reason = run.log.fact(i)?;
    merge(run, a, b, reason)?;
    Ok(())
}

/// Gives a bound that is a fact.
fn add_bound(alloc: Global, run: &mut Run, i: u32, edge: Edge) -> Result<(), Memory>
    requires run { IsRun run.old }
    requires fact { slice_get run.old.log.facts i ≡ Some (Fact.AtMost edge.from edge.to edge.most) }
    requires fine { IsFine run.old.log.nodes (Fact.AtMost edge.from edge.to edge.most) }
    ensures goes { IfOk result (λ _. GoesOn run.old run.new) }
    ensures has { IfOk result (λ _. Contains run.new.bounds.edges edge) }
{
    let reason = run.log.fact(i)?;
    add(alloc, run, edge, reason)?;
    Ok(())
}

/// Derives the bounds of a difference that is a fact.
fn derive_difference(log: &mut Log, i: u32, x: u32, y: u32, by: i128) -> Result<Both, Memory>
    requires fact { slice_get log.old.facts i ≡ Some (Fact.Difference x y by) }
    requires small { IsSmall (2 ^ 100) by }
    ensures continued { IfOk result (λ _. IsContinued log.old log.new) }
    ensures derived { IfOk result (λ b. HaveDerivedBoth log.new.known x y by b.above b.below) }
{
    let fact = log.fact(i)?;
    let above = log.level_above(fact)?;
    let below = log.level_below(fact)?;
    Ok(Both { above, below })
}

/// Gives a difference that is a fact.
fn add_difference(
    alloc: Global,
    run: &mut Run,
    i: u32,
    x: u32,
    y: u32,
    by: i128,
) -> Result<(), Memory>
    requires run { IsRun run.old }
    requires fact { slice_get run.old.log.facts i ≡ Some (Fact.Difference x y by) }
    requires fine { IsFine run.old.log.nodes (Fact.Difference x y by) }
    ensures goes { IfOk result (λ _. GoesOn run.old run.new) }
    ensures has { IfOk result (λ _. HasBoth run.new.bounds.edges x y by) }
{
    let reasons = derive_difference(&mut run.log, i, x, y, by)?;
    add_both(alloc, run, x, y, by, reasons)?;
    Ok(())
}

/// Gives a fact, by its number.
fn add_fact(alloc: Global, run: &mut Run, i: u32, fact: Fact) -> Result<(), Memory>
    requires run { IsRun run.old }
    requires fact { slice_get run.old.log.facts i ≡ Some fact }
    requires fine { IsFine run.old.log.nodes fact }
    ensures goes { IfOk result (λ _. GoesOn run.old run.new) }
    ensures has { IfOk result (λ _. HasFact run.new.classes.merged run.new.bounds.edges fact) }
{
    match fact {
        Fact::Equal(a, b) => {
            add_equality(run, i, a, b)?;
            Ok(())
        }
        Fact::AtMost(x, y, most) => {
            let edge = Edge {
                from: x,
                to: y,
                most,
            };
            add_bound(alloc, run, i, edge)?;
            Ok(())
        }
        Fact::Difference(x, y, by) => {
            add_difference(alloc, run, i, x, y, by)?;
            Ok(())
        }
        Fact::NotEqual(_, _) => Ok(()),
        Fact::NotDifference(_, _, _) => Ok(()),
        Fact::False => Ok(()),
    }
}

/// The fact of a number.
pub(crate) fn fact_at(log: &Log, i: u32) -> Fact
    requires { i < length log.now.facts }
    ensures { slice_get log.now.facts i ≡ Some result }
{
    log.facts()[i as usize]
}

/// Gives the facts.
pub(crate) fn add_facts(alloc: Global, run: &mut Run, count: u32) -> Result<(), Memory>
    requires run { IsRun run.old }
    requires count { count ≡ length run.old.log.facts }
    requires fine { All (IsFine run.old.log.nodes) run.old.log.facts }
    ensures goes { IfOk result (λ _. GoesOn run.old run.new) }
    ensures has { IfOk result (λ _. (l : Fact) → Contains run.old.log.facts l → HasFact run.new.classes.merged run.new.bounds.edges l) }
{
    for i in 0..count {
        let fact = fact_at(&run.log, i);
        add_fact(alloc, run, i, fact)?;
    }
    Ok(())
}

/// Derives the bounds between a sum and its part, or a number and a 0.
fn derive_offset(log: &mut Log, a: u32, zero: u32, other: u32, by: i128) -> Result<Both, Memory>
    requires offset { IsOffset log.old.nodes a zero other by }
    requires small { IsSmall (2 ^ 100) by }
    ensures continued { IfOk result (λ _. IsContinued log.old log.new) }
    ensures derived { IfOk result (λ b. HaveDerivedBoth log.new.known a other by b.above b.below) }
{
    let above = log.above(a, zero)?;
    let below = log.below(a, zero)?;
    Ok(Both { above, below })
}

/// Gives the bounds between a sum and its part, or a number and a 0.
fn add_offset(
    alloc: Global,
    run: &mut Run,
    a: u32,
    zero: u32,
    other: u32,
    by: i128,
) -> Result<(), Memory>
    requires run { IsRun run.old }
    requires offset { IsOffset run.old.log.nodes a zero other by }
    requires left { a < length run.old.classes.nodes }
    requires right { other < length run.old.classes.nodes }
    requires small { IsSmall (2 ^ 100) by }
    ensures goes { IfOk result (λ _. GoesOn run.old run.new) }
    ensures has { IfOk result (λ _. HasBoth run.new.bounds.edges a other by) }
{
    let reasons = derive_offset(&mut run.log, a, zero, other, by)?;
    add_both(alloc, run, a, other, by, reasons)?;
    Ok(())
}

/// Gives the bounds that a term has as a sum, if it is one.
fn add_as_sum(alloc: Global, run: &mut Run, a: u32) -> Result<(), Memory>
    requires run { IsRun run.old }
    requires small { All HasSmallNumber run.old.log.nodes }
    requires parts { PartsAreBelow run.old.log.nodes (length run.old.log.nodes) }
    ensures goes { IfOk result (λ _. GoesOn run.old run.new) }
    ensures has { IfOk result (λ _. (q : ℕ) (c : ℤ) → IsPlus run.old.log.nodes a q c → HasBoth run.new.bounds.edges a q c) }
{
    match shift_at(run.log.nodes(), a) {
        Some(shift) => {
            add_offset(alloc, run, a, a, shift.part, shift.number)?;
            Ok(())
        }
        None => Ok(()),
    }
}

/// Gives the bounds between a number and another term, if that is 0.
fn add_zero(alloc: Global, run: &mut Run, a: u32, zero: u32, number: i128) -> Result<(), Memory>
    requires run { IsRun run.old }
    requires number { IsNumber run.old.log.nodes a number }
    requires small { IsSmall (2 ^ 100) number }
    ensures goes { IfOk result (λ _. GoesOn run.old run.new) }
    ensures has { IfOk result (λ _. IsNumber run.old.log.nodes zero (pos 0) → HasBoth run.new.bounds.edges a zero number) }
{
    if is_zero(run.log.nodes(), zero) {
        add_offset(alloc, run, a, zero, zero, number)?;
        return Ok(());
    }
    Ok(())
}

/// Gives the bounds between a number and every 0.
fn add_number(alloc: Global, run: &mut Run, a: u32, number: i128) -> Result<(), Memory>
    requires run { IsRun run.old }
    requires number { IsNumber run.old.log.nodes a number }
    requires small { IsSmall (2 ^ 100) number }
    ensures goes { IfOk result (λ _. GoesOn run.old run.new) }
    ensures has { IfOk result (λ _. (o : ℕ) → IsNumber run.old.log.nodes o (pos 0) → HasBoth run.new.bounds.edges a o number) }
{
    for zero in 0..run.classes.size() {
        add_zero(alloc, run, a, zero, number)?;
    }
    Ok(())
}

/// Gives the bounds that a term has as a number, if it is one.
fn add_as_number(alloc: Global, run: &mut Run, a: u32) -> Result<(), Memory>
    requires run { IsRun run.old }
    requires small { All HasSmallNumber run.old.log.nodes }
    ensures goes { IfOk result (λ _. GoesOn run.old run.new) }
    ensures has { IfOk result (λ _. (c : ℤ) (o : ℕ) → IsNumber run.old.log.nodes a c → IsNumber run.old.log.nodes o (pos 0) → HasBoth run.new.bounds.edges a o c) }
{
    match number_at(run.log.nodes(), a) {
        Some(number) => {
            add_number(alloc, run, a, number)?;
            Ok(())
        }
        None => Ok(()),
    }
}

/// Gives the bounds that a term has of itself.
fn add_term(alloc: Global, run: &mut Run, a: u32) -> Result<(), Memory>
    requires run { IsRun run.old }
    requires small { All HasSmallNumber run.old.log.nodes }
    requires parts { PartsAreBelow run.old.log.nodes (length run.old.log.nodes) }
    ensures goes { IfOk result (λ _. GoesOn run.old run.new) }
    ensures has { IfOk result (λ _. HasTerm run.old.log.nodes run.new.bounds.edges a) }
{
    add_as_sum(alloc, run, a)?;
    add_as_number(alloc, run, a)?;
    Ok(())
}

/// Gives the bounds that the terms have of themselves.
pub(crate) fn add_terms(alloc: Global, run: &mut Run) -> Result<(), Memory>
    requires run { IsRun run.old }
    requires small { All HasSmallNumber run.old.log.nodes }
    requires parts { PartsAreBelow run.old.log.nodes (length run.old.log.nodes) }
    ensures goes { IfOk result (λ _. GoesOn run.old run.new) }
    ensures has { IfOk result (λ _. (a : ℕ) → a < length run.old.log.nodes → HasTerm run.old.log.nodes run.new.bounds.edges a) }
{
    for a in 0..run.classes.size() {
        add_term(alloc, run, a)?;
    }
    Ok(())
}
