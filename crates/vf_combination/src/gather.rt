//! What facts and terms give to classes and bounds, with marks where it changes something.

ghost use Rattle.std.specs.Prelude.{◌≡◌, ◌<◌, ◌≤◌, ◌^◌, ℕ, ℤ, Bool, pos, length, All, IfOk};
ghost use Rattle.vf_table.specs.Tables.{PartsAreBelow, IsNumber, IsPlus};
ghost use Rattle.vf_ground.specs.Held.{HasBoth, HasTerm, IsFine, HasSmallNumber, HasGained, HaveBoundsGrown};
ghost use Rattle.vf_combination.specs.Exchanged.{AreFitting, AreBoundsOfSteps, HaveGoneOn, HaveBoundsGoneOn, OnlyMarkedNear, HaveMarked};

use crate::marking::{both_marking, bound_marking, merge_marking};
use std::alloc::Global;
use vf_arith::{Bounds, Edge};
use vf_base::Memory;
use vf_growing::GrowingClasses;
use vf_refute::Fact;
use vf_table::{Node, is_zero, number_at, shift_at};

/// Adds a fact, and marks the terms at which it changes something.
pub fn add_fact(
    alloc: Global,
    classes: &mut GrowingClasses,
    bounds: &mut Bounds,
    marks: &mut [bool],
    fact: Fact,
) -> Result<(), Memory>
    requires fitting { AreFitting classes.old bounds.old }
    requires long { length marks.old ≡ length classes.old.nodes }
    requires fine { IsFine classes.old.nodes fact }
    ensures on { HaveGoneOn classes.old bounds.old classes.new bounds.new }
    ensures gained { IfOk result (λ _. HasGained classes.old.nodes fact classes.old.merged bounds.old.edges classes.new.merged bounds.new.edges) }
    ensures marked { IfOk result (λ _. (k : Bool) → HaveMarked classes.old bounds.old k marks.old classes.new bounds.new k marks.new) }
{
    match fact {
        Fact::Equal(a, b) => {
            merge_marking(alloc, classes, marks, a, b)?;
            Ok(())
        }
        Fact::AtMost(x, y, most) => {
            bound_marking(
                alloc,
                bounds,
                marks,
                Edge {
                    from: x,
                    to: y,
                    most,
                },
            )?;
            Ok(())
        }
        Fact::Difference(x, y, by) => {
            both_marking(alloc, bounds, marks, x, y, by)?;
            Ok(())
        }
        Fact::NotEqual(_, _) | Fact::NotDifference(_, _, _) | Fact::False => Ok(()),
    }
}

/// Adds the bounds between a number and another term, if that is 0.
fn add_zero(
    alloc: Global,
    nodes: &[Node],
    bounds: &mut Bounds,
    marks: &mut [bool],
    a: u32,
    zero: u32,
    number: i128,
) -> Result<(), Memory>
    requires of_steps { AreBoundsOfSteps bounds.old }
    requires size { bounds.old.size ≡ length nodes.now }
    requires long { length marks.old ≡ length nodes.now }
    requires term { a < length nodes.now }
    requires zero { zero < length nodes.now }
    requires number { IsNumber nodes.now a number }
    requires small { All HasSmallNumber nodes.now }
    ensures on { HaveBoundsGoneOn bounds.old bounds.new }
    ensures marked { IfOk result (λ _. OnlyMarkedNear bounds.old marks.old bounds.new marks.new) }
    ensures added { IfOk result (λ _. HaveBoundsGrown nodes.now bounds.old.edges bounds.new.edges) }
    ensures has { IfOk result (λ _. IsNumber nodes.now zero (pos 0) → HasBoth bounds.new.edges a zero number) }
{
    if is_zero(nodes, zero) {
        both_marking(alloc, bounds, marks, a, zero, number)?;
        return Ok(());
    }
    Ok(())
}

/// Adds the bounds between two terms of which the first is a number and the second is 0, if they are.
fn add_between(
    alloc: Global,
    nodes: &[Node],
    bounds: &mut Bounds,
    marks: &mut [bool],
    a: u32,
    zero: u32,
) -> Result<(), Memory>
    requires of_steps { AreBoundsOfSteps bounds.old }
    requires size { bounds.old.size ≡ length nodes.now }
    requires long { length marks.old ≡ length nodes.now }
    requires term { a < length nodes.now }
    requires zero { zero < length nodes.now }
    requires small { All HasSmallNumber nodes.now }
    ensures on { HaveBoundsGoneOn bounds.old bounds.new }
    ensures marked { IfOk result (λ _. OnlyMarkedNear bounds.old marks.old bounds.new marks.new) }
    ensures added { IfOk result (λ _. HaveBoundsGrown nodes.now bounds.old.edges bounds.new.edges) }
    ensures has { IfOk result (λ _. (c : ℤ) → IsNumber nodes.now a c → IsNumber nodes.now zero (pos 0) → HasBoth bounds.new.edges a zero c) }
{
    match number_at(nodes, a) {
        Some(number) => {
            add_zero(alloc, nodes, bounds, marks, a, zero, number)?;
            Ok(())
        }
        None => Ok(()),
    }
}

/// Adds the bounds that a term has with each other one where one of them is a number and the other is
/// 0.
fn add_numbers(
    alloc: Global,
    nodes: &[Node],
    bounds: &mut Bounds,
    marks: &mut [bool],
    term: u32,
) -> Result<(), Memory>
    requires of_steps { AreBoundsOfSteps bounds.old }
    requires size { bounds.old.size ≡ length nodes.now }
    requires long { length marks.old ≡ length nodes.now }
    requires few { length nodes.now ≤ 2 ^ 24 }
    requires term { term < length nodes.now }
    requires small { All HasSmallNumber nodes.now }
    ensures on { HaveBoundsGoneOn bounds.old bounds.new }
    ensures marked { IfOk result (λ _. OnlyMarkedNear bounds.old marks.old bounds.new marks.new) }
    ensures added { IfOk result (λ _. HaveBoundsGrown nodes.now bounds.old.edges bounds.new.edges) }
    ensures as_number { IfOk result (λ _. (c : ℤ) (o : ℕ) → o < length nodes.now → IsNumber nodes.now term c → IsNumber nodes.now o (pos 0) → HasBoth bounds.new.edges term o c) }
    ensures as_zero { IfOk result (λ _. (c : ℤ) (a : ℕ) → a < length nodes.now → IsNumber nodes.now a c → IsNumber nodes.now term (pos 0) → HasBoth bounds.new.edges a term c) }
{
    for other in 0..nodes.len() as u32 {
        add_between(alloc, nodes, bounds, marks, term, other)?;
        add_between(alloc, nodes, bounds, marks, other, term)?;
    }
    Ok(())
}

/// Adds the bounds that a term has as a sum, if it is one.
fn add_as_sum(
    alloc: Global,
    nodes: &[Node],
    bounds: &mut Bounds,
    marks: &mut [bool],
    term: u32,
) -> Result<(), Memory>
    requires of_steps { AreBoundsOfSteps bounds.old }
    requires size { bounds.old.size ≡ length nodes.now }
    requires long { length marks.old ≡ length nodes.now }
    requires parts { PartsAreBelow nodes.now (length nodes.now) }
    requires small { All HasSmallNumber nodes.now }
    requires term { term < length nodes.now }
    ensures on { HaveBoundsGoneOn bounds.old bounds.new }
    ensures marked { IfOk result (λ _. OnlyMarkedNear bounds.old marks.old bounds.new marks.new) }
    ensures added { IfOk result (λ _. HaveBoundsGrown nodes.now bounds.old.edges bounds.new.edges) }
    ensures has { IfOk result (λ _. (q : ℕ) (c : ℤ) → IsPlus nodes.now term q c → HasBoth bounds.new.edges term q c) }
{
    match shift_at(nodes, term) {
        Some(shift) => {
            both_marking(alloc, bounds, marks, term, shift.part, shift.number)?;
            Ok(())
        }
        None => Ok(()),
    }
}

/// Adds the bounds that came with a term: its own, and where it is 0 those of each number to it.
pub fn add_term(
    alloc: Global,
    nodes: &[Node],
    bounds: &mut Bounds,
    marks: &mut [bool],
    term: u32,
) -> Result<(), Memory>
    requires of_steps { AreBoundsOfSteps bounds.old }
    requires size { bounds.old.size ≡ length nodes.now }
    requires long { length marks.old ≡ length nodes.now }
    requires few { length nodes.now ≤ 2 ^ 24 }
    requires parts { PartsAreBelow nodes.now (length nodes.now) }
    requires small { All HasSmallNumber nodes.now }
    requires term { term < length nodes.now }
    ensures on { HaveBoundsGoneOn bounds.old bounds.new }
    ensures marked { IfOk result (λ _. OnlyMarkedNear bounds.old marks.old bounds.new marks.new) }
    ensures added { IfOk result (λ _. HaveBoundsGrown nodes.now bounds.old.edges bounds.new.edges) }
    ensures has { IfOk result (λ _. HasTerm nodes.now bounds.new.edges term) }
    ensures zero { IfOk result (λ _. (c : ℤ) (a : ℕ) → IsNumber nodes.now a c → IsNumber nodes.now term (pos 0) → HasBoth bounds.new.edges a term c) }
{
    add_as_sum(alloc, nodes, bounds, marks, term)?;
    add_numbers(alloc, nodes, bounds, marks, term)?;
    Ok(())
}
