//! The step that ends a refutation.

ghost use Rattle.std.specs.Prelude.{◌≡◌, ◌↔◌, ◌<ℤ◌, ℕ, ℤ, pos, neg_ℤ, IsTrue, Contains, Some, MatchOption, slice_get};
ghost use Rattle.vf_refute.specs.Refutations.{HasDerived, CannotBe, IsImpossible, IsDenied, IsConflict};

use vf_refute::{Derived, Fact, Step};
use vf_table::{Node, have_clashing_heads};

/// A bound that a step derived, between the first and the second.
#[derive(Clone, Copy)]
struct Span {
    left: u32,
    right: u32,
    most: i128,
}

/// The bound of a step, if it derived one.
fn bound_at(known: &[Derived], a: u32) -> Option<Span>
    ensures { MatchOption result ((x y : ℕ) (c : ℤ) → HasDerived known.now a (Derived.AreWithin x y c) → ⊥) (λ p. HasDerived known.now a (Derived.AreWithin p.left p.right p.most)) }
{
    match known.get(a as usize)? {
        Derived::AreWithin(x, y, c) => Some(Span {
            left: *x,
            right: *y,
            most: *c,
        }),
        _ => None,
    }
}

/// Whether a fact says that two terms are not equal.
fn is_disequality(fact: Fact, x: u32, y: u32) -> bool
    ensures { IsTrue result ↔ (fact ≡ Fact.NotEqual x y) }
{
    match fact {
        Fact::NotEqual(a, b) => a == x && b == y,
        _ => false,
    }
}

/// Whether one of the facts says that two terms are not equal.
fn are_apart(facts: &[Fact], x: u32, y: u32) -> bool
    ensures { IsTrue result ↔ Contains facts.now (Fact.NotEqual x y) }
{
    for fact in facts {
        if is_disequality(*fact, x, y) {
            return true;
        }
    }
    false
}

/// Whether a fact says that the difference of two terms is not a number.
fn is_no_difference(fact: Fact, x: u32, y: u32, c: i128) -> bool
    ensures { IsTrue result ↔ (fact ≡ Fact.NotDifference x y c) }
{
    match fact {
        Fact::NotDifference(a, b, d) => a == x && b == y && d == c,
        _ => false,
    }
}

/// Whether one of the facts says that the difference of two terms is not a number.
fn is_denied(facts: &[Fact], x: u32, y: u32, c: i128) -> bool
    ensures { IsTrue result ↔ Contains facts.now (Fact.NotDifference x y c) }
{
    for fact in facts {
        if is_no_difference(*fact, x, y, c) {
            return true;
        }
    }
    false
}

/// Whether a term is bounded to be below itself.
fn is_below_itself(x: u32, y: u32, most: i128) -> bool
    ensures { IsTrue result ↔ (x ≡ y) × (most <ℤ pos 0) }
{
    x == y && most < 0
}

/// Whether two terms have clashing heads, or a fact says that they are not equal.
fn cannot_be_equal(nodes: &[Node], facts: &[Fact], x: u32, y: u32) -> bool
    ensures { IsTrue result ↔ CannotBe nodes.now facts.now (Derived.AreEqual x y) }
{
    have_clashing_heads(nodes, x, y) || are_apart(facts, x, y)
}

/// Whether what a step derived cannot be.
fn cannot_be(nodes: &[Node], facts: &[Fact], derived: Derived) -> bool
    ensures { IsTrue result ↔ CannotBe nodes.now facts.now derived }
{
    match derived {
        Derived::AreEqual(x, y) => cannot_be_equal(nodes, facts, x, y),
        Derived::AreWithin(x, y, c) => is_below_itself(x, y, c),
        Derived::HaveDifference(_, _, _) => false,
    }
}

/// Whether the step of a number derived what cannot be.
fn is_impossible(nodes: &[Node], facts: &[Fact], known: &[Derived], a: u32) -> bool
    ensures { IsTrue result ↔ IsImpossible nodes.now facts.now known.now a }
{
    match known.get(a as usize) {
        Some(derived) => cannot_be(nodes, facts, *derived),
        None => false,
    }
}

/// Whether a bound is the opposite of another one: between the same terms the other way round, by
/// the negative of its number.
fn are_opposite(p: Span, q: Span) -> bool
    ensures { IsTrue result ↔ (q.left ≡ p.right) × (q.right ≡ p.left) × (q.most ≡ neg_ℤ p.most) }
{
    if q.left != p.right {
        return false;
    }
    if q.right != p.left {
        return false;
    }
    match p.most.checked_neg() {
        Some(most) => q.most == most,
        None => false,
    }
}

/// Whether two steps bound a difference both ways by a number that a fact denies it to be.
fn is_denied_difference(facts: &[Fact], known: &[Derived], a: u32, b: u32) -> bool
    ensures { IsTrue result ↔ IsDenied facts.now known.now a b }
{
    match bound_at(known, a) {
        Some(p) => match bound_at(known, b) {
            Some(q) => {
                if !are_opposite(p, q) {
                    return false;
                }
                is_denied(facts, p.left, p.right, p.most)
            }
            None => false,
        },
        None => false,
    }
}

/// Whether a fact is one that nothing meets.
fn is_false(facts: &[Fact], i: u32) -> bool
    ensures { IsTrue result ↔ (slice_get facts.now i ≡ Some Fact.False) }
{
    match facts.get(i as usize) {
        Some(Fact::False) => true,
        _ => false,
    }
}

/// Whether a step is a last one, and names a conflict.
pub(crate) fn ends(nodes: &[Node], facts: &[Fact], known: &[Derived], step: &Step) -> bool
    ensures { IsTrue result ↔ IsConflict nodes.now facts.now known.now step.now }
{
    match step {
        Step::Conflict(a) => is_impossible(nodes, facts, known, *a),
        Step::DeniedDifference(a, b) => is_denied_difference(facts, known, *a, *b),
        Step::Falsehood(i) => is_false(facts, *i),
        _ => false,
    }
}
