//! Making sorts equal.

ghost use Rattle.std.specs.Prelude.{◌≡◌, ◌≢◌, ◌↔◌, ℕ, ◌+◌, ◌≤◌, ◌<◌, ◌++◌, ◌∷◌, List, length, reverse, slice_get, Some, None, IsTrue, IfOk, OnOk, OnErr, MatchOption, MatchBool};
ghost use Rattle.vf_sorts.specs.declared.sort.Head.TheVariants.{Unknown};
ghost use Rattle.vf_sorts.specs.Sorts.{size_of};
ghost use Rattle.vf_sorts.specs.Told.{AreAlike, as_told, untold};
ghost use Rattle.vf_sorts.specs.Unknowns.{Filling, filled, Agrees, AgreesAsTold, IsBelow, IsOpen, IsResolved, with_known};
ghost use Rattle.vf_sorts.specs.declared.pair.Pair.{Pair};
ghost use Rattle.vf_sorts.specs.Pairs.{head_of, AreEqual, AllEqual, ArePairBelow, AreBelow, open_count, load, left_to_do, weight};
ghost use Rattle.vf_sorts.specs.Unifying.{AreApart, Equates, by_heads, first_made, is_numbered, unknown_of, where_made, with_sort};

use crate::filling::{resolve, substitute};
use crate::occurrence::is_in;
use crate::pair::{Pair, pair_of, pair_parts};
use crate::sort::{Head, Sort, are_alike};
use std::alloc::Global;
use vf_base::Memory;

/// The number of the unknown sort that a sort is, if it is one.
fn unknown_in(sort: &Sort) -> Option<usize>
    ensures unknown { MatchOption result ((u : ℕ) → head_of sort.now ≢ Unknown u) (λ u. head_of sort.now ≡ Unknown u) }
    ensures is { result ≡ unknown_of (head_of sort.now) }
{
    match sort.head {
        Head::Unknown(number) => Some(number),
        _ => None,
    }
}

/// Learns of an unknown sort that it is another one.
fn learn(
    alloc: Global,
    known: &mut Vec<Option<Sort>>,
    number: usize,
    sort: Sort,
) -> Result<(), Memory>
    ensures learnt { OnOk result (known.new.items ≡ with_known known.old.items number sort) }
    ensures unchanged { OnErr result (known.new.items ≡ known.old.items) }
{
    let mut next: Vec<Option<Sort>> = Vec::new(alloc);
    for known_one in &*known {
        match known_one {
            Some(other) => next.push(Some(substitute(alloc, number, &sort, other)?))?,
            None => next.push(None)?,
        }
    }
    if number < next.len() {
        next[number] = Some(sort);
    }
    *known = next;
    Ok(())
}

/// Whether a sort is the unknown sort with a number.
fn is_unknown(number: usize, sort: &Sort) -> bool
    ensures told { IsTrue result ↔ (head_of sort.now ≡ Unknown number) }
    ensures is { result ≡ is_numbered number (unknown_of (head_of sort.now)) }
{
    match unknown_in(sort) {
        Some(other) => other == number,
        None => false,
    }
}

/// Makes an unknown sort equal to a sort. No sort is equal to one that stands inside of it.
#[tactic(auto, using(crate::proofs::Agreeing::learnt, crate::proofs::Going::itself_made, crate::proofs::Going::inside_made, crate::proofs::Going::learnt_made))]
fn assign(
    alloc: Global,
    known: &mut Vec<Option<Sort>>,
    number: usize,
    sort: Sort,
) -> Result<bool, Memory>
    requires unknown { slice_get known.old.items number ≡ Some None }
    requires open { IsOpen known.old.items sort }
    requires resolved { IsResolved known.old.items }
    ensures length { length known.new.items ≡ length known.old.items }
    ensures resolved { IsResolved known.new.items }
    ensures grown { (f : Filling) → Agrees f known.new.items → Agrees f known.old.items }
    ensures kept { (f : Filling) → AgreesAsTold f known.new.items → AgreesAsTold f known.old.items }
    ensures equal { IfOk result (λ yes. MatchBool yes
        ((f : Filling) → Agrees f known.new.items ↔ (Agrees f known.old.items × AreAlike (f number) (filled f sort)))
        ((f : Filling) → AreAlike (f number) (filled f sort) → ⊥)) }
    ensures told { OnOk result ((f : Filling) → AgreesAsTold f known.old.items → f number ≡ filled f sort → AgreesAsTold f known.new.items) }
    ensures made { IfOk result (λ yes. with_sort known.old.items number sort ≡ where_made yes known.new.items) }
    ensures falls { IfOk result (λ yes. IsTrue yes → (pairs : List Pair) (more : ℕ) → 0 < more → weight known.new.items pairs < left_to_do (open_count known.old.items) (more + size_of sort + load known.old.items pairs)) }
{
    if is_unknown(number, &sort) {
        return Ok(true);
    }
    if is_in(number, &sort) {
        return Ok(false);
    }
    learn(alloc, known, number, sort)?;
    Ok(true)
}

/// Goes on with two sorts in which what is known stands for the unknown ones.
fn unify_resolved(
    alloc: Global,
    known: &mut Vec<Option<Sort>>,
    pairs: &mut Vec<Pair>,
    left: Sort,
    right: Sort,
) -> Result<bool, Memory>
    requires left { IsOpen known.old.items left }
    requires right { IsOpen known.old.items right }
    requires resolved { IsResolved known.old.items }
    requires below { AreBelow (length known.old.items) pairs.old.items }
    ensures length { length known.new.items ≡ length known.old.items }
    ensures resolved { IsResolved known.new.items }
    ensures grown { (f : Filling) → Agrees f known.new.items → Agrees f known.old.items }
    ensures kept { (f : Filling) → AgreesAsTold f known.new.items → AgreesAsTold f known.old.items }
    ensures below { IfOk result (λ _. AreBelow (length known.old.items) pairs.new.items) }
    ensures equal { IfOk result (λ yes. MatchBool yes
        ((f : Filling) → (Agrees f known.new.items × AllEqual untold f pairs.new.items) ↔ (Agrees f known.old.items × AreAlike (filled f left) (filled f right) × AllEqual untold f pairs.old.items))
        ((f : Filling) → AreAlike (filled f left) (filled f right) → ⊥)) }
    ensures told { OnOk result ((f : Filling) → AgreesAsTold f known.old.items → filled f left ≡ filled f right → AllEqual as_told f pairs.old.items → AgreesAsTold f known.new.items × AllEqual as_told f pairs.new.items) }
    ensures made { IfOk result (λ yes. by_heads known.old.items (reverse pairs.old.items) left right ≡ where_made yes (known.new.items, reverse pairs.new.items)) }
    ensures falls { IfOk result (λ yes. IsTrue yes → weight known.new.items pairs.new.items < left_to_do (open_count known.old.items) (size_of left + size_of right + load known.old.items pairs.old.items)) }
{
    if let Some(number) = unknown_in(&left) {
        let is_made = assign(alloc, known, number, right)?;
        return Ok(is_made);
    }
    if let Some(number) = unknown_in(&right) {
        let is_made = assign(alloc, known, number, left)?;
        return Ok(is_made);
    }
    if !are_alike(left.head, right.head) {
        return Ok(false);
    }
    if left.parts.len() != right.parts.len() {
        return Ok(false);
    }
    pair_parts(alloc, pairs, &left.parts, &right.parts)?;
    Ok(true)
}

/// Goes on with two sorts that are to be made equal.
fn unify_pair(
    alloc: Global,
    known: &mut Vec<Option<Sort>>,
    pairs: &mut Vec<Pair>,
    pair: Pair,
) -> Result<bool, Memory>
    requires resolved { IsResolved known.old.items }
    requires pair { ArePairBelow (length known.old.items) pair }
    requires below { AreBelow (length known.old.items) pairs.old.items }
    ensures length { length known.new.items ≡ length known.old.items }
    ensures resolved { IsResolved known.new.items }
    ensures grown { (f : Filling) → Agrees f known.new.items → Agrees f known.old.items }
    ensures kept { (f : Filling) → AgreesAsTold f known.new.items → AgreesAsTold f known.old.items }
    ensures below { IfOk result (λ _. AreBelow (length known.old.items) pairs.new.items) }
    ensures equal { IfOk result (λ yes. MatchBool yes
        ((f : Filling) → (Agrees f known.new.items × AllEqual untold f pairs.new.items) ↔ (Agrees f known.old.items × AreEqual untold f pair × AllEqual untold f pairs.old.items))
        ((f : Filling) → Agrees f known.old.items → AreEqual untold f pair → ⊥)) }
    ensures told { OnOk result ((f : Filling) → AgreesAsTold f known.old.items → AreEqual as_told f pair → AllEqual as_told f pairs.old.items → AgreesAsTold f known.new.items × AllEqual as_told f pairs.new.items) }
    ensures made { IfOk result (λ yes. first_made known.old.items pair (reverse pairs.old.items) ≡ where_made yes (known.new.items, reverse pairs.new.items)) }
    ensures falls { IfOk result (λ yes. IsTrue yes → weight known.new.items pairs.new.items < weight known.old.items (pair ∷ pairs.old.items)) }
{
    let left = resolve(alloc, known, &pair.left)?;
    let right = resolve(alloc, known, &pair.right)?;
    let is_made = unify_resolved(alloc, known, pairs, left, right)?;
    Ok(is_made)
}

/// Makes two sorts equal, up to what pointers tell, by what comes to be known of the unknown ones; false where nothing
/// does that. The pair that is next stands at the end.
#[tactic(auto, using(crate::proofs::Going::leads_first))]
pub fn unify(
    alloc: Global,
    known: &mut Vec<Option<Sort>>,
    left: &Sort,
    right: &Sort,
) -> Result<bool, Memory>
    requires resolved { IsResolved known.old.items }
    requires left { IsBelow (length known.old.items) left.now }
    requires right { IsBelow (length known.old.items) right.now }
    ensures length { length known.new.items ≡ length known.old.items }
    ensures resolved { IsResolved known.new.items }
    ensures grown { (f : Filling) → Agrees f known.new.items → Agrees f known.old.items }
    ensures kept { (f : Filling) → AgreesAsTold f known.new.items → AgreesAsTold f known.old.items }
    ensures equal { IfOk result (λ yes. MatchBool yes
        (Equates known.old.items left.now right.now known.new.items)
        (AreApart known.old.items left.now right.now)) }
{
    let mut pairs = Vec::new(alloc);
    pairs.push(pair_of(alloc, left, right)?)?;
    while let Some(pair) = pairs.pop() {
        if !unify_pair(alloc, known, &mut pairs, pair)? {
            return Ok(false);
        }
    }
    Ok(true)
}
