//! Equalities of terms.

ghost use Rattle.std.specs.Prelude.{◌≡◌, ◌<◌, [], IfOk, length};
ghost use Rattle.vf_asking.specs.Course.{Says};
ghost use Rattle.vf_asking.specs.Journal.{Grew, HasNode, path_at, seen};
ghost use Rattle.vf_asking.specs.Plain.{CanBeAsked, is_integer};
ghost use Rattle.vf_normal.specs.NormalForms.{IsNormal};
ghost use Rattle.vf_formula.specs.Literals.{shown_literal};
ghost use Rattle.vf_equality.specs.Equality.{CanBeCompared, AllCanBeCompared, equality, equal, all_equal, learned};

use std::alloc::Global;
use std::cmp::Ordering;
use vf_asking::{Asker, holds, note};
use vf_base::{Memory, Place, RuleFault};
use vf_core::Comparison;
use vf_formula::{Kind, Literal, Term, comparison_literal};
use vf_trail::Node;

/// Whether a term is an integer term.
fn is_integer(term: &Term) -> bool
    ensures { result ≡ is_integer term.now }
{
    match term.head.kind() {
        Kind::Integer => true,
        Kind::Other => false,
    }
}

/// The literal that two terms are equal.
#[tactic(auto, using(crate::proofs::Plain::equality_asked))]
pub fn equality(alloc: Global, left: &Term, right: &Term) -> Result<Literal, Memory>
    requires left { CanBeCompared left.now }
    requires right { CanBeCompared right.now }
    ensures value { IfOk result (λ l. shown_literal l ≡ equality left.now right.now) }
    ensures askable { IfOk result (λ l. CanBeAsked (shown_literal l)) }
{
    if is_integer(left) && is_integer(right) {
        comparison_literal(alloc, Comparison::Equal, left, right)
    } else {
        Ok(Literal::Equal(left.copy(alloc)?, right.copy(alloc)?))
    }
}

/// Whether two terms are equal, by the facts of a node's path.
#[tactic(auto, using(crate::proofs::Asking::asking))]
pub fn are_equal<A: Asker>(
    alloc: Global,
    asker: &mut A,
    at: Node,
    left: &Term,
    right: &Term,
    place: Place,
) -> Result<bool, RuleFault>
    requires begun { 0 < length (A.journal asker.old).units }
    requires there { HasNode (A.journal asker.old) at }
    requires left { CanBeCompared left.now }
    requires right { CanBeCompared right.now }
    ensures says { Says (equal place (path_at (A.journal asker.old) at) left.now right.now) (λ yes. yes)
        (seen (A.journal asker.old)) (seen (A.journal asker.new)) result }
    ensures grew { Grew (A.journal asker.old) (A.journal asker.new) }
    ensures origin { A.origin asker.new ≡ A.origin asker.old }
{
    if left.compare(right).is_eq() {
        return Ok(true);
    }
    let goal = equality(alloc, left, right)?;
    let proved = holds(asker, at, &goal, place)?;
    Ok(proved)
}

/// Hangs the fact that two terms are equal on a node.
#[tactic(auto, using(crate::proofs::Asking::learning))]
pub fn learn_equal<A: Asker>(
    alloc: Global,
    asker: &mut A,
    at: Node,
    left: &Term,
    right: &Term,
    place: Place,
) -> Result<Node, RuleFault>
    requires begun { 0 < length (A.journal asker.old).units }
    requires there { HasNode (A.journal asker.old) at }
    requires left { CanBeCompared left.now }
    requires right { CanBeCompared right.now }
    ensures says { Says (learned place (path_at (A.journal asker.old) at) left.now right.now)
        (λ node. path_at (A.journal asker.new) node)
        (seen (A.journal asker.old)) (seen (A.journal asker.new)) result }
    ensures node { IfOk result (λ node. HasNode (A.journal asker.new) node) }
    ensures grew { Grew (A.journal asker.old) (A.journal asker.new) }
    ensures origin { A.origin asker.new ≡ A.origin asker.old }
{
    let fact = equality(alloc, left, right)?;
    let node = note(asker, at, &fact, place)?;
    Ok(node)
}

/// Whether terms are equal one by one, by the facts of a node's path: asked from the left up to the first pair that is
/// not.
pub fn all_equal<A: Asker>(
    alloc: Global,
    asker: &mut A,
    at: Node,
    left: &[Term],
    right: &[Term],
    place: Place,
) -> Result<bool, RuleFault>
    requires begun { 0 < length (A.journal asker.old).units }
    requires there { HasNode (A.journal asker.old) at }
    requires left { AllCanBeCompared left.now }
    requires right { AllCanBeCompared right.now }
    ensures says { Says (all_equal place (path_at (A.journal asker.old) at) left.now right.now) (λ yes. yes)
        (seen (A.journal asker.old)) (seen (A.journal asker.new)) result }
    ensures grew { Grew (A.journal asker.old) (A.journal asker.new) }
    ensures origin { A.origin asker.new ≡ A.origin asker.old }
{
    for index in 0..left.len() {
        if index >= right.len() {
            return Ok(false);
        }
        match are_equal(alloc, asker, at, &left[index], &right[index], place) {
            Ok(true) => {}
            Ok(false) => return Ok(false),
            Err(fault) => return Err(fault),
        }
    }
    if left.len() < right.len() {
        return Ok(false);
    }
    Ok(true)
}
