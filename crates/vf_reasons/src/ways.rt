//! How applications came to be unfolded.

ghost use Rattle.std.specs.Prelude.{◌≡◌, ◌<◌, ◌↔◌, List, ℕ, length, Some, All, IsTrue, IfOk, MatchOption};
ghost use Rattle.vf_closure.specs.Literals as pure;
ghost use Rattle.vf_question.specs.declared.unfolding.Unfolding.{Unfolding};
ghost use Rattle.vf_question.specs.Plain.{IsPlain};
ghost use Rattle.vf_question.specs.Unfolded.{IsNext};
ghost use Rattle.vf_recheck.specs.Refutations.{IsOfConstructor};
ghost use Rattle.vf_reasons.specs.Drafts.{IsBasis, IsDraft, IsCandidate, IsNoCase, IsFoundCase, IsWayBy, IsWay};

use crate::basis::Basis;
use crate::draft::Draft;
use crate::equalities::{Found, derive_equal};
use std::alloc::Global;
use vf_base::Memory;
use vf_formula::{Head, Term};
use vf_interning::place;
use vf_question::Unfolding;
use vf_refute as refute;
use vf_unfold::Unfolder;

/// How an application came to be unfolded.
#[derive(Drop)]
pub(crate) enum Way {
    /// To its body.
    Body,
    /// By the constructor's term to which a step derived that the argument that it goes by is equal.
    Case(u32),
    /// Not by what there is now: a last step names a conflict.
    Conflict(refute::Step),
}

/// Whether a term is one of a constructor.
fn is_of_constructor(term: &Term) -> bool
    ensures { IsTrue result ↔ IsOfConstructor term.now }
{
    match &term.head {
        Head::Constructor(_) => true,
        _ => false,
    }
}

/// Whether the body of an application is a term.
fn is_body<U: Unfolder>(alloc: Global, unfolder: &U, unfolding: &Unfolding) -> Result<bool, Memory>
    requires { IsPlain unfolding.now.application }
    ensures is { IfOk result (λ yes. IsTrue yes ↔ ((U.unfoldings unfolder.now).body unfolding.now.application ≡ Some unfolding.now.body)) }
    ensures plain { IfOk result (λ yes. IsTrue yes → IsPlain unfolding.now.body) }
{
    match unfolder.body(alloc, &unfolding.application)? {
        Some(body) => Ok(body.same(&unfolding.body)),
        None => Ok(false),
    }
}

/// Whether an application is unfolded to a term by a constructor's term.
fn is_case<U: Unfolder>(
    alloc: Global,
    unfolder: &U,
    unfolding: &Unfolding,
    by: &Term,
) -> Result<bool, Memory>
    requires application { IsPlain unfolding.now.application }
    requires by { IsPlain by.now }
    ensures is { IfOk result (λ yes. IsTrue yes ↔ IsCandidate (U.unfoldings unfolder.now) unfolding.now by.now) }
    ensures plain { IfOk result (λ yes. IsTrue yes → IsPlain unfolding.now.body) }
{
    if !is_of_constructor(by) {
        return Ok(false);
    }
    match unfolder.case(alloc, &unfolding.application, by)? {
        Some(body) => Ok(body.same(&unfolding.body)),
        None => Ok(false),
    }
}

/// Writes the steps that derive that a term is equal to one of a constructor by which an application is
/// unfolded to a body, or those of a conflict; none where no term is equal to such a one.
fn find_case<U: Unfolder>(
    alloc: Global,
    unfolder: &U,
    basis: &Basis,
    draft: &mut Draft,
    unfolding: &Unfolding,
    x: u32,
) -> Result<Option<Found>, Memory>
    requires basis { (literals : List pure.Literal) × (made : List Unfolding) × IsBasis literals made basis.now }
    requires plain { All IsPlain basis.now.terms.items }
    requires application { IsPlain unfolding.now.application }
    requires switched { x < length basis.now.terms.items }
    ensures none { IfOk result (λ o. MatchOption o ((k : ℕ) → k < length basis.now.terms.items → IsNoCase (U.unfoldings unfolder.now) unfolding.now basis.now x k) (λ f. Unit {0})) }
    ensures found { IfOk result (λ o. MatchOption o (Unit {0}) (λ f. (literals : List pure.Literal) (made : List Unfolding) → IsDraft (U.unfoldings unfolder.now) literals made basis.now draft.old → IsDraft (U.unfoldings unfolder.now) literals made basis.now draft.new × IsFoundCase (U.unfoldings unfolder.now) literals unfolding.now basis.now draft.new x f)) }
{
    for (k, by) in basis.terms.iter().enumerate() {
        if is_case(alloc, unfolder, unfolding, by)? {
            match derive_equal(alloc, basis, draft, x, k as u32)? {
                Some(found) => return Ok(Some(found)),
                None => {}
            }
        }
    }
    Ok(None)
}

/// What was found, as the way of an unfolding.
fn way_by(found: Found) -> Way
    ensures { IsWayBy found result }
{
    match found {
        Found::Equality(step) => Way::Case(step),
        Found::Conflict(last) => Way::Conflict(last),
    }
}

/// How an application came to be unfolded that was unfolded next.
pub(crate) fn way_to<U: Unfolder>(
    alloc: Global,
    unfolder: &U,
    basis: &Basis,
    draft: &mut Draft,
    unfolding: &Unfolding,
) -> Result<Way, Memory>
    requires next { (literals : List pure.Literal) × (made : List Unfolding) × IsBasis literals made basis.now × IsNext (U.unfoldings unfolder.now) literals made unfolding.now }
    ensures { IfOk result (λ way. (literals : List pure.Literal) (made : List Unfolding) → IsDraft (U.unfoldings unfolder.now) literals made basis.now draft.old → IsDraft (U.unfoldings unfolder.now) literals made basis.now draft.new × IsWay (U.unfoldings unfolder.now) literals unfolding.now basis.now draft.new way) }
{
    if is_body(alloc, unfolder, unfolding)? {
        return Ok(Way::Body);
    }
    match unfolder.switched(&unfolding.application) {
        Some(argument) => {
            let x = place(&basis.terms, argument) as u32;
            match find_case(alloc, unfolder, basis, draft, unfolding, x)? {
                Some(found) => Ok(way_by(found)),
                None => unreachable!(),
            }
        }
        None => unreachable!(),
    }
}
