//! Joining of classes in a list that gives each term the number of its class.

ghost use Rattle.std.specs.Prelude.{◌≡◌, ℕ, ◌<◌, ◌≤◌, ◌^◌, ◌∷◌, [], ◌↔◌, ◌⊎◌, length, sum, All, IsTrue, IsFalse, slice_index};
ghost use Rattle.vf_table.specs.Tables.{IsInjective, PartsAreBelow};
ghost use Rattle.vf_congruence.specs.Congruence.{Congruent};
ghost use Rattle.vf_congruence.specs.Meeting.{AreTogether, PartsAreTogether, StayTogether, AreTogetherOrPaired, OnlyPairedMeet, OnlyCongruentMeet, IsSettledAt, IsSettled, IsStill, IsStillAt, AreNumbersBounded};

use vf_table::{Node, have_one_head, is_injective};

/// Whether the terms of two lists are in one class, place by place.
pub fn parts_together(classes: &[u32], xs: &[u32], ys: &[u32]) -> bool
    requires left { All (λ x. x < length classes.now) xs.now }
    requires right { All (λ y. y < length classes.now) ys.now }
    ensures { IsTrue result ↔ PartsAreTogether classes.now xs.now ys.now }
{
    if xs.len() != ys.len() {
        return false;
    }
    for (i, x) in xs.iter().enumerate() {
        if classes[*x as usize] != classes[ys[i] as usize] {
            return false;
        }
    }
    true
}

/// Gives a class another number.
fn rename_class(classes: &mut [u32], from: u32, to: u32)
    ensures moved { (k : ℕ) → k < length classes.old → slice_index classes.old k ≡ from → slice_index classes.new k ≡ to }
    ensures kept { (k : ℕ) → (slice_index classes.old k ≡ from → ⊥) → slice_index classes.new k ≡ slice_index classes.old k }
{
    for class in classes.iter_mut() {
        if *class == from {
            *class = to;
        }
    }
}

/// Joins the classes of two terms, and tells whether they were two.
fn join_two(classes: &mut [u32], a: u32, b: u32) -> bool
    requires left { a < length classes.old }
    requires right { b < length classes.old }
    ensures joined { slice_index classes.new a ≡ slice_index classes.new b }
    ensures kept { StayTogether classes.old classes.new }
    ensures bounded { AreNumbersBounded classes.old classes.new }
    ensures only { OnlyPairedMeet classes.old (a ∷ []) (b ∷ []) classes.new }
    ensures same { IsFalse result → classes.new ≡ classes.old }
    ensures falls { IsTrue result → sum classes.new < sum classes.old }
{
    let one = classes[a as usize];
    let other = classes[b as usize];
    if one == other {
        return false;
    }
    if one < other {
        rename_class(classes, other, one);
    } else {
        rename_class(classes, one, other);
    }
    true
}

/// Joins the classes of the two terms at each place of two lists, and tells whether any were two.
fn join_parts(classes: &mut [u32], xs: &[u32], ys: &[u32]) -> bool
    requires left { All (λ x. x < length classes.old) xs.now }
    requires right { All (λ y. y < length classes.old) ys.now }
    requires long { length xs.now ≡ length ys.now }
    ensures joined { PartsAreTogether classes.new xs.now ys.now }
    ensures kept { StayTogether classes.old classes.new }
    ensures bounded { AreNumbersBounded classes.old classes.new }
    ensures only { OnlyPairedMeet classes.old xs.now ys.now classes.new }
    ensures same { IsFalse result → classes.new ≡ classes.old }
    ensures falls { IsTrue result → sum classes.new < sum classes.old }
{
    let mut changed = false;
    for (i, x) in xs.iter().enumerate() {
        if join_two(classes, *x, ys[i]) {
            changed = true;
        }
    }
    changed
}

/// Joins what two terms leave to join, and tells whether there was anything.
fn settle_pair(nodes: &[Node], classes: &mut [u32], a: u32, b: u32) -> bool
    requires long { length nodes.now ≡ length classes.old }
    requires parts { PartsAreBelow nodes.now (length classes.old) }
    requires left { a < length classes.old }
    requires right { b < length classes.old }
    ensures kept { StayTogether classes.old classes.new }
    ensures bounded { AreNumbersBounded classes.old classes.new }
    ensures only { OnlyCongruentMeet nodes.now classes.old classes.new }
    ensures settled { IsFalse result → IsSettledAt nodes.now classes.new a b }
    ensures same { IsFalse result → classes.new ≡ classes.old }
    ensures falls { IsTrue result → sum classes.new < sum classes.old }
{
    let m = &nodes[a as usize];
    let n = &nodes[b as usize];
    if !have_one_head(m, n) {
        return false;
    }
    if classes[a as usize] == classes[b as usize] {
        if is_injective(m.head) {
            return join_parts(classes, &m.parts, &n.parts);
        }
        return false;
    }
    if parts_together(classes, &m.parts, &n.parts) {
        return join_two(classes, a, b);
    }
    false
}

/// Joins what a term and each other one leave to join, and tells whether there was anything.
fn settle_term(nodes: &[Node], classes: &mut [u32], a: u32) -> bool
    requires long { length nodes.now ≡ length classes.old }
    requires parts { PartsAreBelow nodes.now (length classes.old) }
    requires few { length nodes.now < 2 ^ 32 }
    requires left { a < length classes.old }
    ensures kept { StayTogether classes.old classes.new }
    ensures bounded { AreNumbersBounded classes.old classes.new }
    ensures only { OnlyCongruentMeet nodes.now classes.old classes.new }
    ensures settled { IsFalse result → (b : ℕ) → b < length classes.old → IsSettledAt nodes.now classes.new a b }
    ensures same { IsFalse result → classes.new ≡ classes.old }
    ensures falls { IsTrue result → sum classes.new < sum classes.old }
{
    let mut changed = false;
    for b in 0..nodes.len() as u32 {
        if settle_pair(nodes, classes, a, b) {
            changed = true;
        }
    }
    changed
}

/// Whether a term is in the class in which it was.
fn is_still(settled: &[u32], classes: &[u32], x: u32) -> bool
    requires { x < length classes.now }
    ensures { IsTrue result → IsStill settled.now classes.now x }
{
    if x as usize >= settled.len() {
        return false;
    }
    settled[x as usize] == classes[x as usize]
}

/// Whether a term and its parts are in the classes in which they were.
fn is_still_at(nodes: &[Node], settled: &[u32], classes: &[u32], a: u32) -> bool
    requires long { length nodes.now ≡ length classes.now }
    requires parts { PartsAreBelow nodes.now (length classes.now) }
    requires term { a < length classes.now }
    ensures { IsTrue result → IsStillAt nodes.now settled.now classes.now a }
{
    if !is_still(settled, classes, a) {
        return false;
    }
    let node = &nodes[a as usize];
    for part in &node.parts {
        if !is_still(settled, classes, *part) {
            return false;
        }
    }
    true
}

/// Joins what a term and each other one leave to join, unless the term and its parts are in the
/// classes in which they were, and tells whether there was anything.
fn settle_if_moved(nodes: &[Node], settled: &[u32], classes: &mut [u32], a: u32) -> bool
    requires long { length nodes.now ≡ length classes.old }
    requires parts { PartsAreBelow nodes.now (length classes.old) }
    requires few { length nodes.now < 2 ^ 32 }
    requires left { a < length classes.old }
    ensures kept { StayTogether classes.old classes.new }
    ensures bounded { AreNumbersBounded classes.old classes.new }
    ensures only { OnlyCongruentMeet nodes.now classes.old classes.new }
    ensures settled { IsFalse result → IsStillAt nodes.now settled.now classes.new a ⊎ ((b : ℕ) → b < length classes.old → IsSettledAt nodes.now classes.new a b) }
    ensures same { IsFalse result → classes.new ≡ classes.old }
    ensures falls { IsTrue result → sum classes.new < sum classes.old }
{
    if is_still_at(nodes, settled, classes, a) {
        return false;
    }
    settle_term(nodes, classes, a)
}

/// Goes once over the terms that, or whose parts, are not in the classes in which they were when
/// nothing was left to join, each with each other term, and tells whether there was anything to join.
fn settle_once(nodes: &[Node], settled: &[u32], classes: &mut [u32]) -> bool
    requires long { length nodes.now ≡ length classes.old }
    requires parts { PartsAreBelow nodes.now (length classes.old) }
    requires few { length nodes.now < 2 ^ 32 }
    requires settled { IsSettled nodes.now settled.now }
    ensures kept { StayTogether classes.old classes.new }
    ensures bounded { AreNumbersBounded classes.old classes.new }
    ensures only { OnlyCongruentMeet nodes.now classes.old classes.new }
    ensures settled { IsFalse result → IsSettled nodes.now classes.new }
    ensures same { IsFalse result → classes.new ≡ classes.old }
    ensures falls { IsTrue result → sum classes.new < sum classes.old }
{
    let mut changed = false;
    for a in 0..nodes.len() as u32 {
        if settle_if_moved(nodes, settled, classes, a) {
            changed = true;
        }
    }
    changed
}

/// Joins until nothing is left to join, the classes of the first terms being given when nothing was.
pub fn settle(nodes: &[Node], settled: &[u32], classes: &mut [u32])
    requires long { length nodes.now ≡ length classes.old }
    requires parts { PartsAreBelow nodes.now (length classes.old) }
    requires few { length nodes.now < 2 ^ 32 }
    requires settled { IsSettled nodes.now settled.now }
    ensures sound { OnlyCongruentMeet nodes.now classes.old classes.new }
    ensures bounded { AreNumbersBounded classes.old classes.new }
    ensures complete { (a b : ℕ) → Congruent nodes.now (AreTogether classes.old) a b → slice_index classes.new a ≡ slice_index classes.new b }
    ensures weight { sum classes.new ≤ sum classes.old }
{
    while settle_once(nodes, settled, classes) {}
}

/// Joins the classes of two terms, and then what that leaves to join, the classes being given when
/// nothing was left.
pub fn join_and_settle(nodes: &[Node], settled: &[u32], classes: &mut [u32], a: u32, b: u32)
    requires long { length nodes.now ≡ length classes.old }
    requires parts { PartsAreBelow nodes.now (length classes.old) }
    requires few { length nodes.now < 2 ^ 32 }
    requires settled { IsSettled nodes.now settled.now }
    requires left { a < length classes.old }
    requires right { b < length classes.old }
    ensures bounded { AreNumbersBounded classes.old classes.new }
    ensures sound { (x y : ℕ) → AreTogether classes.new x y → Congruent nodes.now (AreTogetherOrPaired classes.old (a ∷ []) (b ∷ [])) x y }
    ensures complete { (x y : ℕ) → Congruent nodes.now (AreTogetherOrPaired classes.old (a ∷ []) (b ∷ [])) x y → slice_index classes.new x ≡ slice_index classes.new y }
    ensures weight { (slice_index classes.old a ≡ slice_index classes.old b → ⊥) → sum classes.new < sum classes.old }
{
    join_two(classes, a, b);
    settle(nodes, settled, classes);
}
