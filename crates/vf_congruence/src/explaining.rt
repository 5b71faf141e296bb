//! Steps that derive the equality of terms of one class.
//!
//! Each term gets a label, itself at first, and a step that says that the two are equal. What was
//! merged and what that leaves to join is joined, with steps, until two terms have one label.

ghost use Rattle.std.specs.Prelude.{◌≡◌, ℕ, ◌<◌, ◌^◌, length, sum, All, IsTrue, IsFalse, IfOk, IfSome, MatchOption, slice_index, slice_set};
ghost use Rattle.vf_table.specs.Tables.{PartsAreBelow};
ghost use Rattle.vf_refute.specs.Refutations.{HasDerived, ArePairwiseEqual};
ghost use Rattle.vf_log.specs.Copies.{HaveSameTerms};
ghost use Rattle.vf_log.specs.Derivations.{IsContinued};
ghost use Rattle.vf_congruence.specs.Congruence.{Congruent, WereMerged};
ghost use Rattle.vf_congruence.specs.Meeting.{PartsAreTogether, IsSettledAt, IsSettled};
ghost use Rattle.vf_congruence.specs.Explained.{IsClosed, IsParted, AreExplained, AreReasons, IsOfWhole, IsOfPlace, IsGap};

use crate::joining::parts_together;
use std::alloc::Global;
use vf_base::Memory;
use vf_log::Log;
use vf_refute::Derived;
use vf_table::{Node, have_one_head, is_injective};

/// What two terms leave to join.
#[derive(Clone, Copy, Debug)]
pub enum Gap {
    /// The terms themselves, since their parts are together.
    Whole,
    /// Their parts at a place, since they are together and of one constructor.
    Part(usize),
}

/// Derives that two terms of one label are equal.
fn derive_equal(log: &mut Log, labels: &[u32], steps: &[u32], a: u32, b: u32) -> Result<u32, Memory>
    requires explained { AreExplained log.old.known labels.now steps.now }
    requires left { a < length labels.now }
    requires right { b < length labels.now }
    requires one { slice_index labels.now a ≡ slice_index labels.now b }
    ensures derived { IfOk result (λ s. HasDerived log.new.known s (Derived.AreEqual a b)) }
    ensures continued { IfOk result (λ _. IsContinued log.old log.new) }
{
    let back = log.symmetric(steps[b as usize])?;
    let step = log.transitive(steps[a as usize], back)?;
    Ok(step)
}

/// Derives that the labels of two equal terms are equal.
fn derive_labels(log: &mut Log, to_one: u32, equal: u32, to_other: u32) -> Result<u32, Memory>
    requires { (a : ℕ) × (b : ℕ) × (one : ℕ) × (other : ℕ) × HasDerived log.old.known to_one (Derived.AreEqual a one) × HasDerived log.old.known equal (Derived.AreEqual a b) × HasDerived log.old.known to_other (Derived.AreEqual b other) }
    ensures derived { IfOk result (λ s. (a b one other : ℕ) → HasDerived log.old.known to_one (Derived.AreEqual a one) → HasDerived log.old.known equal (Derived.AreEqual a b) → HasDerived log.old.known to_other (Derived.AreEqual b other) → HasDerived log.new.known s (Derived.AreEqual one other)) }
    ensures continued { IfOk result (λ _. IsContinued log.old log.new) }
{
    let from_one = log.symmetric(to_one)?;
    let across = log.transitive(from_one, equal)?;
    let step = log.transitive(across, to_other)?;
    Ok(step)
}

/// Gives a term of one label another one, and the step that says so.
fn relabel_one(
    log: &mut Log,
    labels: &mut [u32],
    steps: &mut [u32],
    i: usize,
    to: u32,
    step: u32,
) -> Result<(), Memory>
    requires within { i < length labels.old }
    requires step { HasDerived log.old.known step (Derived.AreEqual (slice_index labels.old i) to) }
    requires explained { AreExplained log.old.known labels.old steps.old }
    ensures continued { IfOk result (λ _. IsContinued log.old log.new) }
    ensures explained { IfOk result (λ _. AreExplained log.new.known labels.new steps.new) }
    ensures labels { IfOk result (λ _. labels.new ≡ slice_set labels.old i to) }
{
    steps[i] = log.transitive(steps[i], step)?;
    labels[i] = to;
    Ok(())
}

/// Gives the terms of a label another one.
fn relabel(
    log: &mut Log,
    labels: &mut [u32],
    steps: &mut [u32],
    from: u32,
    to: u32,
    step: u32,
) -> Result<(), Memory>
    requires step { HasDerived log.old.known step (Derived.AreEqual from to) }
    requires explained { AreExplained log.old.known labels.old steps.old }
    ensures continued { IfOk result (λ _. IsContinued log.old log.new) }
    ensures explained { IfOk result (λ _. AreExplained log.new.known labels.new steps.new) }
    ensures moved { IfOk result (λ _. (k : ℕ) → k < length labels.old → slice_index labels.old k ≡ from → slice_index labels.new k ≡ to) }
    ensures kept { IfOk result (λ _. (k : ℕ) → (slice_index labels.old k ≡ from → ⊥) → slice_index labels.new k ≡ slice_index labels.old k) }
{
    for i in 0..labels.len() {
        if labels[i] == from {
            relabel_one(log, labels, steps, i, to, step)?;
        }
    }
    Ok(())
}

/// Joins the labels of two terms that were derived to be equal.
fn join(
    log: &mut Log,
    labels: &mut [u32],
    steps: &mut [u32],
    a: u32,
    b: u32,
    step: u32,
) -> Result<(), Memory>
    requires left { a < length labels.old }
    requires right { b < length labels.old }
    requires apart { slice_index labels.old a ≡ slice_index labels.old b → ⊥ }
    requires step { HasDerived log.old.known step (Derived.AreEqual a b) }
    requires explained { AreExplained log.old.known labels.old steps.old }
    ensures continued { IfOk result (λ _. IsContinued log.old log.new) }
    ensures explained { IfOk result (λ _. AreExplained log.new.known labels.new steps.new) }
    ensures falls { IfOk result (λ _. sum labels.new < sum labels.old) }
{
    let one = labels[a as usize];
    let other = labels[b as usize];
    if one < other {
        let back = log.symmetric(step)?;
        let equal = derive_labels(log, steps[b as usize], back, steps[a as usize])?;
        relabel(log, labels, steps, other, one, equal)?;
    } else {
        let equal = derive_labels(log, steps[a as usize], step, steps[b as usize])?;
        relabel(log, labels, steps, one, other, equal)?;
    }
    Ok(())
}

/// The first place at which terms of two lists have two labels.
fn parted_at(labels: &[u32], xs: &[u32], ys: &[u32]) -> Option<usize>
    requires left { All (λ x. x < length labels.now) xs.now }
    requires right { All (λ y. y < length labels.now) ys.now }
    requires long { length xs.now ≡ length ys.now }
    ensures { MatchOption result (PartsAreTogether labels.now xs.now ys.now) (λ i. (i < length xs.now) × (slice_index labels.now (slice_index xs.now i) ≡ slice_index labels.now (slice_index ys.now i) → ⊥)) }
{
    for (i, x) in xs.iter().enumerate() {
        if labels[*x as usize] != labels[ys[i] as usize] {
            return Some(i);
        }
    }
    None
}

/// What two terms leave to join, none if nothing.
fn gap_at(nodes: &[Node], labels: &[u32], a: u32, b: u32) -> Option<Gap>
    requires long { length nodes.now ≡ length labels.now }
    requires parts { PartsAreBelow nodes.now (length labels.now) }
    requires left { a < length labels.now }
    requires right { b < length labels.now }
    ensures { MatchOption result (IsSettledAt nodes.now labels.now a b) (IsGap nodes.now labels.now a b) }
{
    let m = &nodes[a as usize];
    let n = &nodes[b as usize];
    if !have_one_head(m, n) {
        return None;
    }
    if labels[a as usize] == labels[b as usize] {
        if !is_injective(m.head) {
            return None;
        }
        return Some(Gap::Part(parted_at(labels, &m.parts, &n.parts)?));
    }
    if !parts_together(labels, &m.parts, &n.parts) {
        return None;
    }
    Some(Gap::Whole)
}

/// Two terms and what they leave to join.
#[derive(Clone, Copy)]
struct Task {
    left: u32,
    right: u32,
    gap: Gap,
}

/// The first term that leaves something to join with a term.
fn gap_beside(nodes: &[Node], labels: &[u32], a: u32) -> Option<Task>
    requires long { length nodes.now ≡ length labels.now }
    requires parts { PartsAreBelow nodes.now (length labels.now) }
    requires few { length nodes.now < 2 ^ 32 }
    requires left { a < length labels.now }
    ensures { MatchOption result ((b : ℕ) → b < length labels.now → IsSettledAt nodes.now labels.now a b) (λ t. (t.left < length labels.now) × (t.right < length labels.now) × IsGap nodes.now labels.now t.left t.right t.gap) }
{
    for b in 0..nodes.len() as u32 {
        match gap_at(nodes, labels, a, b) {
            Some(gap) => return Some(Task {
                left: a,
                right: b,
                gap,
            }),
            None => {}
        }
    }
    None
}

/// Two terms that leave something to join, the first of them not before a term, if there are any.
fn gap_from(nodes: &[Node], labels: &[u32], from: u32) -> Option<Task>
    requires long { length nodes.now ≡ length labels.now }
    requires parts { PartsAreBelow nodes.now (length labels.now) }
    requires few { length nodes.now < 2 ^ 32 }
    ensures { IfSome result (λ t. (t.left < length labels.now) × (t.right < length labels.now) × IsGap nodes.now labels.now t.left t.right t.gap) }
{
    for a in from..nodes.len() as u32 {
        match gap_beside(nodes, labels, a) {
            Some(task) => return Some(task),
            None => {}
        }
    }
    None
}

/// Two terms that leave something to join, which are looked for from a term on before they are looked
/// for among all.
fn find_gap(nodes: &[Node], labels: &[u32], from: u32) -> Option<Task>
    requires long { length nodes.now ≡ length labels.now }
    requires parts { PartsAreBelow nodes.now (length labels.now) }
    requires few { length nodes.now < 2 ^ 32 }
    ensures { MatchOption result (IsSettled nodes.now labels.now) (λ t. (t.left < length labels.now) × (t.right < length labels.now) × IsGap nodes.now labels.now t.left t.right t.gap) }
{
    if let Some(task) = gap_from(nodes, labels, from) {
        return Some(task);
    }
    for a in 0..nodes.len() as u32 {
        match gap_beside(nodes, labels, a) {
            Some(task) => return Some(task),
            None => {}
        }
    }
    None
}

/// Derives that the terms of two lists are equal, place by place.
fn derive_parts(
    alloc: Global,
    log: &mut Log,
    labels: &[u32],
    steps: &[u32],
    xs: &[u32],
    ys: &[u32],
) -> Result<Vec<u32>, Memory>
    requires explained { AreExplained log.old.known labels.now steps.now }
    requires left { All (λ x. x < length labels.now) xs.now }
    requires right { All (λ y. y < length labels.now) ys.now }
    requires together { PartsAreTogether labels.now xs.now ys.now }
    ensures derived { IfOk result (λ v. ArePairwiseEqual log.new.known xs.now ys.now v.items) }
    ensures continued { IfOk result (λ _. IsContinued log.old log.new) }
{
    let mut out = Vec::new(alloc);
    for (i, x) in xs.iter().enumerate() {
        out.push(derive_equal(log, labels, steps, *x, ys[i])?)?;
    }
    Ok(out)
}

/// Derives that two terms are equal whose parts are together.
fn derive_whole(
    alloc: Global,
    log: &mut Log,
    nodes: &[Node],
    labels: &[u32],
    steps: &[u32],
    a: u32,
    b: u32,
) -> Result<u32, Memory>
    requires explained { AreExplained log.old.known labels.now steps.now }
    requires nodes { HaveSameTerms nodes.now log.old.nodes }
    requires long { length nodes.now ≡ length labels.now }
    requires parts { PartsAreBelow nodes.now (length labels.now) }
    requires left { a < length labels.now }
    requires right { b < length labels.now }
    requires whole { IsOfWhole nodes.now labels.now a b }
    ensures derived { IfOk result (λ s. HasDerived log.new.known s (Derived.AreEqual a b)) }
    ensures continued { IfOk result (λ _. IsContinued log.old log.new) }
{
    let m = &nodes[a as usize];
    let n = &nodes[b as usize];
    let equal = derive_parts(alloc, log, labels, steps, &m.parts, &n.parts)?;
    let step = log.congruent(a, b, equal)?;
    Ok(step)
}

/// Joins two terms whose parts are together.
fn join_whole(
    alloc: Global,
    log: &mut Log,
    nodes: &[Node],
    labels: &mut [u32],
    steps: &mut [u32],
    a: u32,
    b: u32,
) -> Result<(), Memory>
    requires explained { AreExplained log.old.known labels.old steps.old }
    requires nodes { HaveSameTerms nodes.now log.old.nodes }
    requires long { length nodes.now ≡ length labels.old }
    requires parts { PartsAreBelow nodes.now (length labels.old) }
    requires left { a < length labels.old }
    requires right { b < length labels.old }
    requires whole { IsOfWhole nodes.now labels.old a b }
    ensures continued { IfOk result (λ _. IsContinued log.old log.new) }
    ensures explained { IfOk result (λ _. AreExplained log.new.known labels.new steps.new) }
    ensures falls { IfOk result (λ _. sum labels.new < sum labels.old) }
{
    let step = derive_whole(alloc, log, nodes, labels, steps, a, b)?;
    join(log, labels, steps, a, b, step)?;
    Ok(())
}

/// The part of a term at a place.
fn part_at(node: &Node, i: usize) -> u32
    requires { i < length node.now.parts.items }
    ensures { result ≡ slice_index node.now.parts.items i }
{
    node.parts[i]
}

/// Joins the parts at a place of two terms that are together and of one constructor.
fn join_place(
    log: &mut Log,
    nodes: &[Node],
    labels: &mut [u32],
    steps: &mut [u32],
    a: u32,
    b: u32,
    i: usize,
) -> Result<(), Memory>
    requires explained { AreExplained log.old.known labels.old steps.old }
    requires nodes { HaveSameTerms nodes.now log.old.nodes }
    requires long { length nodes.now ≡ length labels.old }
    requires parts { PartsAreBelow nodes.now (length labels.old) }
    requires left { a < length labels.old }
    requires right { b < length labels.old }
    requires place { IsOfPlace nodes.now labels.old a b i }
    ensures continued { IfOk result (λ _. IsContinued log.old log.new) }
    ensures explained { IfOk result (λ _. AreExplained log.new.known labels.new steps.new) }
    ensures falls { IfOk result (λ _. sum labels.new < sum labels.old) }
{
    if i > u32::MAX as usize {
        return Err(Memory);
    }
    let x = part_at(&nodes[a as usize], i);
    let y = part_at(&nodes[b as usize], i);
    let equal = derive_equal(log, labels, steps, a, b)?;
    let step = log.part(equal, i as u32)?;
    join(log, labels, steps, x, y, step)?;
    Ok(())
}

/// Joins what two terms leave to join.
fn join_gap(
    alloc: Global,
    log: &mut Log,
    nodes: &[Node],
    labels: &mut [u32],
    steps: &mut [u32],
    task: Task,
) -> Result<(), Memory>
    requires explained { AreExplained log.old.known labels.old steps.old }
    requires nodes { HaveSameTerms nodes.now log.old.nodes }
    requires long { length nodes.now ≡ length labels.old }
    requires parts { PartsAreBelow nodes.now (length labels.old) }
    requires left { task.left < length labels.old }
    requires right { task.right < length labels.old }
    requires gap { IsGap nodes.now labels.old task.left task.right task.gap }
    ensures continued { IfOk result (λ _. IsContinued log.old log.new) }
    ensures explained { IfOk result (λ _. AreExplained log.new.known labels.new steps.new) }
    ensures falls { IfOk result (λ _. sum labels.new < sum labels.old) }
{
    match task.gap {
        Gap::Whole => join_whole(alloc, log, nodes, labels, steps, task.left, task.right),
        Gap::Part(i) => join_place(log, nodes, labels, steps, task.left, task.right, i),
    }
}

/// The first pair of which the terms have two labels.
fn parted_pair(labels: &[u32], merged: &[(u32, u32)]) -> Option<usize>
    requires { (x y : ℕ) → WereMerged merged.now x y → (x < length labels.now) × (y < length labels.now) }
    ensures { MatchOption result ((x y : ℕ) → WereMerged merged.now x y → slice_index labels.now x ≡ slice_index labels.now y) (λ i. IsParted labels.now merged.now i) }
{
    for (i, pair) in merged.iter().enumerate() {
        let (x, y) = *pair;
        if labels[x as usize] != labels[y as usize] {
            return Some(i);
        }
    }
    None
}

/// Joins what is left to join at one place, and tells whether there was anything. Places are looked for
/// from a term on, which comes to be that of the place.
fn join_next(
    alloc: Global,
    log: &mut Log,
    nodes: &[Node],
    labels: &mut [u32],
    steps: &mut [u32],
    merged: &[(u32, u32)],
    reasons: &[u32],
    from: &mut u32,
) -> Result<bool, Memory>
    requires explained { AreExplained log.old.known labels.old steps.old }
    requires nodes { HaveSameTerms nodes.now log.old.nodes }
    requires long { length nodes.now ≡ length labels.old }
    requires parts { PartsAreBelow nodes.now (length labels.old) }
    requires few { length nodes.now < 2 ^ 32 }
    requires terms { (x y : ℕ) → WereMerged merged.now x y → (x < length labels.old) × (y < length labels.old) }
    requires reasons { AreReasons log.old.known merged.now reasons.now }
    ensures continued { IfOk result (λ _. IsContinued log.old log.new) }
    ensures explained { IfOk result (λ _. AreExplained log.new.known labels.new steps.new) }
    ensures falls { IfOk result (λ r. IsTrue r → sum labels.new < sum labels.old) }
    ensures closed { IfOk result (λ r. IsFalse r → IsClosed nodes.now merged.now labels.old) }
{
    match parted_pair(labels, merged) {
        Some(i) => {
            let (x, y) = merged[i];
            join(log, labels, steps, x, y, reasons[i])?;
            return Ok(true);
        }
        None => {}
    }
    match find_gap(nodes, labels, *from) {
        Some(task) => {
            *from = task.left;
            join_gap(alloc, log, nodes, labels, steps, task)?;
            Ok(true)
        }
        None => Ok(false),
    }
}

/// Joins until two terms that are equal by what was merged have one label.
fn join_until(
    alloc: Global,
    log: &mut Log,
    nodes: &[Node],
    labels: &mut [u32],
    steps: &mut [u32],
    merged: &[(u32, u32)],
    reasons: &[u32],
    a: u32,
    b: u32,
) -> Result<(), Memory>
    requires explained { AreExplained log.old.known labels.old steps.old }
    requires nodes { HaveSameTerms nodes.now log.old.nodes }
    requires long { length nodes.now ≡ length labels.old }
    requires parts { PartsAreBelow nodes.now (length labels.old) }
    requires few { length nodes.now < 2 ^ 32 }
    requires terms { (x y : ℕ) → WereMerged merged.now x y → (x < length labels.old) × (y < length labels.old) }
    requires reasons { AreReasons log.old.known merged.now reasons.now }
    requires left { a < length labels.old }
    requires right { b < length labels.old }
    requires equal { Congruent nodes.now (WereMerged merged.now) a b }
    ensures continued { IfOk result (λ _. IsContinued log.old log.new) }
    ensures explained { IfOk result (λ _. AreExplained log.new.known labels.new steps.new) }
    ensures one { IfOk result (λ _. slice_index labels.new a ≡ slice_index labels.new b) }
{
    let mut from = 0;
    while labels[a as usize] != labels[b as usize] {
        if !join_next(alloc, log, nodes, labels, steps, merged, reasons, &mut from)? {
            unreachable!();
        }
    }
    Ok(())
}

/// Derives that two terms are equal that are so by what was merged, from labels and their steps.
pub fn derive_from(
    alloc: Global,
    log: &mut Log,
    nodes: &[Node],
    labels: &mut [u32],
    steps: &mut [u32],
    merged: &[(u32, u32)],
    reasons: &[u32],
    a: u32,
    b: u32,
) -> Result<u32, Memory>
    requires explained { AreExplained log.old.known labels.old steps.old }
    requires nodes { HaveSameTerms nodes.now log.old.nodes }
    requires long { length nodes.now ≡ length labels.old }
    requires parts { PartsAreBelow nodes.now (length labels.old) }
    requires few { length nodes.now < 2 ^ 32 }
    requires terms { (x y : ℕ) → WereMerged merged.now x y → (x < length labels.old) × (y < length labels.old) }
    requires reasons { AreReasons log.old.known merged.now reasons.now }
    requires left { a < length labels.old }
    requires right { b < length labels.old }
    requires equal { Congruent nodes.now (WereMerged merged.now) a b }
    ensures continued { IfOk result (λ _. IsContinued log.old log.new) }
    ensures derived { IfOk result (λ s. HasDerived log.new.known s (Derived.AreEqual a b)) }
{
    join_until(alloc, log, nodes, labels, steps, merged, reasons, a, b)?;
    let step = derive_equal(log, labels, steps, a, b)?;
    Ok(step)
}

/// For each term below a count a step that says that it is equal to itself.
pub fn derive_each(alloc: Global, log: &mut Log, count: u32) -> Result<Vec<u32>, Memory>
    ensures long { IfOk result (λ v. length v.items ≡ count) }
    ensures each { IfOk result (λ v. (k : ℕ) → k < count → HasDerived log.new.known (slice_index v.items k) (Derived.AreEqual k k)) }
    ensures continued { IfOk result (λ _. IsContinued log.old log.new) }
{
    let mut steps = Vec::new(alloc);
    for i in 0..count {
        steps.push(log.reflexive(i)?)?;
    }
    Ok(steps)
}
