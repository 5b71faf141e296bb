//! Equalities of two terms, derived by what there is.

ghost use Rattle.std.specs.Prelude.{◌≡◌, ◌<◌, ◌↔◌, ◌++◌, ◌∷◌, [], ℕ, List, length, IsTrue, IfOk, MatchOption};
ghost use Rattle.vf_closure.specs.Literals as pure;
ghost use Rattle.vf_closure.specs.Closure.{Unfoldings, no_unfoldings, Same};
ghost use Rattle.vf_question.specs.declared.unfolding.Unfolding.{Unfolding};
ghost use Rattle.vf_question.specs.Questions.{at};
ghost use Rattle.vf_refute.specs.Refutations.{HasDerived};
ghost use Rattle.vf_reasons.specs.Drafts.{with_equations, IsBasis, IsDraft, IsFound, IsFoundBy};

use crate::basis::Basis;
use crate::draft::Draft;
use crate::following::follow;
use crate::questions::{copy_facts, refutation_over};
use std::alloc::Global;
use vf_base::Memory;
use vf_refute::{Derived, Fact, Step};

/// What was found beside the denial of an equality.
#[derive(Drop)]
pub(crate) enum Found {
    /// A step that derives it.
    Equality(u32),
    /// A last step, which names a conflict without the denial.
    Conflict(Step),
}

/// Whether a step derived that two terms are equal.
fn is_equality(known: &[Derived], a: u32, x: u32, y: u32) -> bool
    ensures { IsTrue result ↔ HasDerived known.now a (Derived.AreEqual x y) }
{
    match known.get(a as usize) {
        Some(Derived::AreEqual(left, right)) => *left == x && *right == y,
        _ => false,
    }
}

/// The step that derived an equality, if a last step names it.
fn equality_named(known: &[Derived], last: &Step, x: u32, y: u32) -> Option<u32>
    ensures { MatchOption result ((a : ℕ) → last.now ≡ Step.Conflict a → HasDerived known.now a (Derived.AreEqual x y) → ⊥) (λ a. (last.now ≡ Step.Conflict a) × HasDerived known.now a (Derived.AreEqual x y)) }
{
    match last {
        Step::Conflict(a) => {
            if is_equality(known, *a, x, y) {
                Some(*a)
            } else {
                None
            }
        }
        _ => None,
    }
}

/// What a last step names beside the denial of an equality.
fn found_by(draft: &Draft, last: Step, x: u32, y: u32) -> Found
    ensures { IsFoundBy draft.now.known.items last x y result }
{
    match equality_named(&draft.known, &last, x, y) {
        Some(step) => Found::Equality(step),
        None => Found::Conflict(last),
    }
}

/// The facts of a basis, and that two terms are not equal.
fn with_denial(alloc: Global, basis: &Basis, x: u32, y: u32) -> Result<Vec<Fact>, Memory>
    ensures { IfOk result (λ v. v.items ≡ basis.now.facts.items ++ Fact.NotEqual x y ∷ []) }
{
    let mut facts = copy_facts(alloc, &basis.facts)?;
    facts.push(Fact::NotEqual(x, y))?;
    Ok(facts)
}

/// Writes the steps that derive that two terms are equal, or those of a conflict without it; none exactly
/// where the closure of the literals does not have them equal, no fixpoint being unfolded.
pub(crate) fn derive_equal(
    alloc: Global,
    basis: &Basis,
    draft: &mut Draft,
    x: u32,
    y: u32,
) -> Result<Option<Found>, Memory>
    requires basis { (literals : List pure.Literal) × (made : List Unfolding) × IsBasis literals made basis.now }
    requires left { x < length basis.now.terms.items }
    requires right { y < length basis.now.terms.items }
    ensures none { IfOk result (λ o. MatchOption o ((literals : List pure.Literal) (made : List Unfolding) → IsBasis literals made basis.now → Same no_unfoldings (with_equations literals made) (at basis.now.terms.items x) (at basis.now.terms.items y) → ⊥) (λ f. Unit {0})) }
    ensures stays { IfOk result (λ o. MatchOption o (draft.new ≡ draft.old) (λ f. (u : Unfoldings) (literals : List pure.Literal) (made : List Unfolding) → IsDraft u literals made basis.now draft.old → IsDraft u literals made basis.now draft.new × IsFound literals basis.now draft.new x y f)) }
{
    let facts = with_denial(alloc, basis, x, y)?;
    match refutation_over(alloc, basis, &facts)? {
        Some(steps) => {
            let last = follow(alloc, basis, draft, &facts, &steps)?;
            Ok(Some(found_by(draft, last, x, y)))
        }
        None => Ok(None),
    }
}
