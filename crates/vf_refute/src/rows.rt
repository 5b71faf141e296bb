//! What one step derives.

ghost use Rattle.std.specs.Prelude.{◌≡◌, ◌^◌, ◌↔◌, ℕ, ℤ, pos, ◌+ℤ◌, neg_ℤ, IsTrue, MatchOption};
ghost use Rattle.vf_table.specs.Tables.{IsNumber};
ghost use Rattle.vf_refute.specs.Refutations.{IsWithin, HasDerived, Gives, IsOfFact, IsSymmetric, IsTransitive, ArePairwiseEqual, IsCongruent, AreParts, IsOfPart, IsOffset, IsAbove, IsBelow, IsLevel, IsLevelAbove, IsLevelBelow, IsChain, IsSqueezed, Derives, IsAnswer};

use crate::steps::{Derived, Fact, Step};
use vf_table::{
    Node, Shift, have_one_head, is_injective, is_integer, is_zero, number_at, shift_at,
};

/// The limit of the numbers in steps.
const LIMIT: i128 = 1 << 126;

/// Two terms that a step derived to be equal.
#[derive(Clone, Copy)]
pub struct Pair {
    pub left: u32,
    pub right: u32,
}

/// A bound or a difference that a step derived, between the first and the second.
#[derive(Clone, Copy)]
pub struct Span {
    pub left: u32,
    pub right: u32,
    pub most: i128,
}

/// The equality of a step, if it derived one.
pub fn equality_at(known: &[Derived], a: u32) -> Option<Pair>
    ensures { MatchOption result ((x y : ℕ) → HasDerived known.now a (Derived.AreEqual x y) → ⊥) (λ p. HasDerived known.now a (Derived.AreEqual p.left p.right)) }
{
    match known.get(a as usize)? {
        Derived::AreEqual(x, y) => Some(Pair {
            left: *x,
            right: *y,
        }),
        _ => None,
    }
}

/// The bound of a step, if it derived one.
pub fn bound_at(known: &[Derived], a: u32) -> Option<Span>
    ensures { MatchOption result ((x y : ℕ) (c : ℤ) → HasDerived known.now a (Derived.AreWithin x y c) → ⊥) (λ p. HasDerived known.now a (Derived.AreWithin p.left p.right p.most)) }
{
    match known.get(a as usize)? {
        Derived::AreWithin(x, y, c) => Some(Span {
            left: *x,
            right: *y,
            most: *c,
        }),
        _ => None,
    }
}

/// Whether a number is within the limit.
fn is_within_limit(c: i128) -> bool
    ensures { IsTrue result ↔ IsWithin (2 ^ 126) c }
{
    -LIMIT <= c && c <= LIMIT
}

/// The negative of a number, where it is within the limit.
fn negative(c: i128) -> Option<i128>
    ensures { MatchOption result (IsWithin (2 ^ 126) (neg_ℤ c) → ⊥) (λ d. (d ≡ neg_ℤ c) × IsWithin (2 ^ 126) d) }
{
    if -LIMIT <= c && c <= LIMIT {
        Some(-c)
    } else {
        None
    }
}

/// The sum of two numbers, where it is within the limit.
fn total(c: i128, d: i128) -> Option<i128>
    ensures { MatchOption result (IsWithin (2 ^ 126) (c +ℤ d) → ⊥) (λ e. (e ≡ c +ℤ d) × IsWithin (2 ^ 126) e) }
{
    let sum = c.checked_add(d)?;
    if is_within_limit(sum) {
        Some(sum)
    } else {
        None
    }
}

/// A bound between two terms, where its number is within the limit.
fn within(left: u32, right: u32, most: i128) -> Option<Derived>
    ensures { IsAnswer (λ d. d ≡ Derived.AreWithin left right most) result }
{
    if is_within_limit(most) {
        Some(Derived::AreWithin(left, right, most))
    } else {
        None
    }
}

/// The bound between two terms by the negative of a number, where that is within the limit.
fn within_negative(left: u32, right: u32, most: i128) -> Option<Derived>
    ensures { IsAnswer (λ d. d ≡ Derived.AreWithin left right (neg_ℤ most)) result }
{
    Some(Derived::AreWithin(left, right, negative(most)?))
}

/// A difference of two terms, where it is within the limit.
fn difference(left: u32, right: u32, by: i128) -> Option<Derived>
    ensures { IsAnswer (λ d. d ≡ Derived.HaveDifference left right by) result }
{
    if is_within_limit(by) {
        Some(Derived::HaveDifference(left, right, by))
    } else {
        None
    }
}

/// What a fact derives.
fn given(fact: Fact) -> Option<Derived>
    ensures { IsAnswer (Gives fact) result }
{
    match fact {
        Fact::Equal(a, b) => Some(Derived::AreEqual(a, b)),
        Fact::AtMost(x, y, c) => within(x, y, c),
        Fact::Difference(x, y, c) => difference(x, y, c),
        Fact::NotEqual(_, _) => None,
        Fact::NotDifference(_, _, _) => None,
        Fact::False => None,
    }
}

/// What a fact of the question derives.
fn by_fact(facts: &[Fact], i: u32) -> Option<Derived>
    ensures { IsAnswer (IsOfFact facts.now i) result }
{
    given(*facts.get(i as usize)?)
}

/// What symmetry derives.
fn by_symmetry(known: &[Derived], a: u32) -> Option<Derived>
    ensures { IsAnswer (IsSymmetric known.now a) result }
{
    let p = equality_at(known, a)?;
    Some(Derived::AreEqual(p.right, p.left))
}

/// What transitivity derives.
fn by_transitivity(known: &[Derived], a: u32, b: u32) -> Option<Derived>
    ensures { IsAnswer (IsTransitive known.now a b) result }
{
    let p = equality_at(known, a)?;
    let q = equality_at(known, b)?;
    if p.right == q.left {
        Some(Derived::AreEqual(p.left, q.right))
    } else {
        None
    }
}

/// Whether a step derived that two terms are equal.
fn are_equal(known: &[Derived], a: u32, x: u32, y: u32) -> bool
    ensures { IsTrue result ↔ HasDerived known.now a (Derived.AreEqual x y) }
{
    match equality_at(known, a) {
        Some(p) => p.left == x && p.right == y,
        None => false,
    }
}

/// Whether steps derived that the terms of two lists are equal, place by place.
fn are_pairwise_equal(known: &[Derived], xs: &[u32], ys: &[u32], steps: &[u32]) -> bool
    ensures { IsTrue result ↔ ArePairwiseEqual known.now xs.now ys.now steps.now }
{
    if ys.len() != xs.len() {
        return false;
    }
    if steps.len() != xs.len() {
        return false;
    }
    for (i, x) in xs.iter().enumerate() {
        if !are_equal(known, steps[i], *x, ys[i]) {
            return false;
        }
    }
    true
}

/// What congruence derives.
fn by_congruence(
    nodes: &[Node],
    known: &[Derived],
    a: u32,
    b: u32,
    steps: &[u32],
) -> Option<Derived>
    ensures { IsAnswer (IsCongruent nodes.now known.now a b steps.now) result }
{
    let m = nodes.get(a as usize)?;
    let n = nodes.get(b as usize)?;
    if !have_one_head(m, n) {
        return None;
    }
    if !are_pairwise_equal(known, &m.parts, &n.parts, steps) {
        return None;
    }
    Some(Derived::AreEqual(a, b))
}

/// The parts at a place of two terms of one constructor.
fn parts_at(nodes: &[Node], x: u32, y: u32, i: u32) -> Option<Pair>
    ensures { MatchOption result ((p q : ℕ) → AreParts nodes.now x y i p q → ⊥) (λ p. AreParts nodes.now x y i p.left p.right) }
{
    let m = nodes.get(x as usize)?;
    let n = nodes.get(y as usize)?;
    if !is_injective(m.head) {
        return None;
    }
    if !have_one_head(m, n) {
        return None;
    }
    if (i as usize) < m.parts.len() {
        return Some(Pair {
            left: m.parts[i as usize],
            right: n.parts[i as usize],
        });
    }
    None
}

/// What equal terms of one constructor derive of their parts.
fn by_part(nodes: &[Node], known: &[Derived], a: u32, i: u32) -> Option<Derived>
    ensures { IsAnswer (IsOfPart nodes.now known.now a i) result }
{
    let p = equality_at(known, a)?;
    let parts = parts_at(nodes, p.left, p.right, i)?;
    Some(Derived::AreEqual(parts.left, parts.right))
}

/// The zero that is named and a number, for a term that is the number.
fn number_over(nodes: &[Node], a: u32, zero: u32) -> Option<Shift>
    ensures { MatchOption result ((c : ℤ) → IsNumber nodes.now a c → IsNumber nodes.now zero (pos 0) → ⊥) (λ s. (s.part ≡ zero) × IsNumber nodes.now a s.number × IsNumber nodes.now zero (pos 0)) }
{
    let number = number_at(nodes, a)?;
    if is_zero(nodes, zero) {
        Some(Shift { part: zero, number })
    } else {
        None
    }
}

/// The term from which a sum or a number differs by a number, and that number.
fn offset_at(nodes: &[Node], a: u32, zero: u32) -> Option<Shift>
    ensures { MatchOption result ((q : ℕ) (c : ℤ) → IsOffset nodes.now a zero q c → ⊥) (λ s. IsOffset nodes.now a zero s.part s.number) }
{
    match shift_at(nodes, a) {
        Some(shift) => Some(shift),
        None => number_over(nodes, a, zero),
    }
}

/// What a sum or a number derives above its part or a zero.
fn by_above(nodes: &[Node], a: u32, zero: u32) -> Option<Derived>
    ensures { IsAnswer (IsAbove nodes.now a zero) result }
{
    let offset = offset_at(nodes, a, zero)?;
    within(a, offset.part, offset.number)
}

/// What a sum or a number derives below its part or a zero.
fn by_below(nodes: &[Node], a: u32, zero: u32) -> Option<Derived>
    ensures { IsAnswer (IsBelow nodes.now a zero) result }
{
    let offset = offset_at(nodes, a, zero)?;
    within_negative(offset.part, a, offset.number)
}

/// Two terms and their difference, where a step derived it or that they are equal.
fn level_at(nodes: &[Node], known: &[Derived], a: u32) -> Option<Span>
    ensures { MatchOption result ((x y : ℕ) (c : ℤ) → IsLevel nodes.now known.now a x y c → ⊥) (λ p. IsLevel nodes.now known.now a p.left p.right p.most) }
{
    match known.get(a as usize)? {
        Derived::AreEqual(x, y) => {
            if !is_integer(nodes, *x) {
                return None;
            }
            if !is_integer(nodes, *y) {
                return None;
            }
            Some(Span {
                left: *x,
                right: *y,
                most: 0,
            })
        }
        Derived::HaveDifference(x, y, c) => Some(Span {
            left: *x,
            right: *y,
            most: *c,
        }),
        Derived::AreWithin(_, _, _) => None,
    }
}

/// What an equality of integer terms, or a difference, derives one way.
fn by_level_above(nodes: &[Node], known: &[Derived], a: u32) -> Option<Derived>
    ensures { IsAnswer (IsLevelAbove nodes.now known.now a) result }
{
    let level = level_at(nodes, known, a)?;
    within(level.left, level.right, level.most)
}

/// What an equality of integer terms, or a difference, derives the other way.
fn by_level_below(nodes: &[Node], known: &[Derived], a: u32) -> Option<Derived>
    ensures { IsAnswer (IsLevelBelow nodes.now known.now a) result }
{
    let level = level_at(nodes, known, a)?;
    within_negative(level.right, level.left, level.most)
}

/// What a chain of two bounds derives.
fn by_chain(known: &[Derived], a: u32, b: u32) -> Option<Derived>
    ensures { IsAnswer (IsChain known.now a b) result }
{
    let p = bound_at(known, a)?;
    let q = bound_at(known, b)?;
    if p.right != q.left {
        return None;
    }
    Some(Derived::AreWithin(p.left, q.right, total(p.most, q.most)?))
}

/// Whether a bound is 0.
fn is_level_bound(span: Span) -> bool
    ensures { IsTrue result ↔ (span.most ≡ pos 0) }
{
    span.most == 0
}

/// What two bounds 0 derive.
fn by_squeeze(nodes: &[Node], known: &[Derived], a: u32, b: u32) -> Option<Derived>
    ensures { IsAnswer (IsSqueezed nodes.now known.now a b) result }
{
    let p = bound_at(known, a)?;
    let q = bound_at(known, b)?;
    if !is_level_bound(p) {
        return None;
    }
    if !is_level_bound(q) {
        return None;
    }
    if p.right != q.left {
        return None;
    }
    if p.left != q.right {
        return None;
    }
    if !is_integer(nodes, p.left) {
        return None;
    }
    if !is_integer(nodes, p.right) {
        return None;
    }
    Some(Derived::AreEqual(p.left, p.right))
}

/// What a step derives, if it is an instance of its kind and does not end the refutation.
pub fn derive(nodes: &[Node], facts: &[Fact], known: &[Derived], step: &Step) -> Option<Derived>
    ensures { IsAnswer (Derives nodes.now facts.now known.now step.now) result }
{
    match step {
        Step::Fact(i) => by_fact(facts, *i),
        Step::Reflexive(t) => Some(Derived::AreEqual(*t, *t)),
        Step::Symmetric(a) => by_symmetry(known, *a),
        Step::Transitive(a, b) => by_transitivity(known, *a, *b),
        Step::Congruent(a, b, steps) => by_congruence(nodes, known, *a, *b, &steps.numbers),
        Step::Part(a, i) => by_part(nodes, known, *a, *i),
        Step::Above(a, zero) => by_above(nodes, *a, *zero),
        Step::Below(a, zero) => by_below(nodes, *a, *zero),
        Step::LevelAbove(a) => by_level_above(nodes, known, *a),
        Step::LevelBelow(a) => by_level_below(nodes, known, *a),
        Step::Chain(a, b) => by_chain(known, *a, *b),
        Step::Squeezed(a, b) => by_squeeze(nodes, known, *a, *b),
        Step::Conflict(_) => None,
        Step::DeniedDifference(_, _) => None,
        Step::Falsehood(_) => None,
    }
}
