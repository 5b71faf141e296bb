//! The refutation of a question.

ghost use Rattle.std.specs.Prelude.{◌≡◌, ◌++◌, [], List, map, All, IfOk, MatchOption};
ghost use Rattle.vf_closure.specs.Literals as pure;
ghost use Rattle.vf_closure.specs.Closure.{Unfoldings, no_unfoldings, Conflict};
ghost use Rattle.vf_formula.specs.Literals.{shown_literal};
ghost use Rattle.vf_question.specs.declared.unfolding.Unfolding.{Unfolding};
ghost use Rattle.vf_question.specs.Plain.{IsPlainLiteral};
ghost use Rattle.vf_question.specs.Unfolded.{equations};
ghost use Rattle.vf_unfolding.specs.Rounds.{AreInTurn};
ghost use Rattle.vf_recheck.specs.Refutations.{IsRefutation};
ghost use Rattle.vf_reasons.specs.Drafts.{IsBasis, IsDraft, IsEnd, IsDraftTo};

use crate::adding::unfold_next;
use crate::basis::{Basis, begun};
use crate::draft::{Draft, empty};
use crate::following::follow;
use crate::questions::refutation_over;
use std::alloc::Global;
use vf_base::Memory;
use vf_formula::Literal;
use vf_question::Unfolding;
use vf_recheck::Step;
use vf_refute as refute;
use vf_unfold::Unfolder;

/// Writes the steps that derive unfoldings, which came in turn; or those of a conflict, where there is one
/// before the last of them, and answers the last step.
fn write_unfoldings<U: Unfolder>(
    alloc: Global,
    unfolder: &U,
    basis: &mut Basis,
    draft: &mut Draft,
    made: &[Unfolding],
) -> Result<Option<refute::Step>, Memory>
    requires turn { (literals : List pure.Literal) × IsDraft (U.unfoldings unfolder.now) literals [] basis.old draft.old × AreInTurn (U.unfoldings unfolder.now) literals made.now }
    ensures { IfOk result (λ o. (literals : List pure.Literal) → IsDraft (U.unfoldings unfolder.now) literals [] basis.old draft.old → AreInTurn (U.unfoldings unfolder.now) literals made.now → IsDraftTo (U.unfoldings unfolder.now) literals made.now basis.new draft.new o) }
{
    for unfolding in made {
        if let Some(last) = unfold_next(alloc, unfolder, basis, draft, unfolding)? {
            return Ok(Some(last));
        }
    }
    Ok(None)
}

/// Writes the steps of a conflict of a basis, but for the last, and answers that.
fn write_conflict(alloc: Global, basis: &Basis, draft: &mut Draft) -> Result<refute::Step, Memory>
    requires conflict { (literals : List pure.Literal) × (made : List Unfolding) × IsBasis literals made basis.now × Conflict no_unfoldings (literals ++ equations made) }
    ensures { IfOk result (λ last. (u : Unfoldings) (literals : List pure.Literal) (made : List Unfolding) → IsDraft u literals made basis.now draft.old → IsDraft u literals made basis.now draft.new × IsEnd literals basis.now draft.new last) }
{
    match refutation_over(alloc, basis, &basis.facts)? {
        Some(steps) => {
            let last = follow(alloc, basis, draft, &basis.facts, &steps)?;
            Ok(last)
        }
        None => unreachable!(),
    }
}

/// Writes the steps of a refutation but for the last, and answers that.
fn write_refutation<U: Unfolder>(
    alloc: Global,
    unfolder: &U,
    draft: &mut Draft,
    literals: &[Literal],
    made: &[Unfolding],
) -> Result<refute::Step, Memory>
    requires plain { All IsPlainLiteral (map shown_literal literals.now) }
    requires turn { AreInTurn (U.unfoldings unfolder.now) (map shown_literal literals.now) made.now }
    requires conflict { Conflict no_unfoldings (map shown_literal literals.now ++ equations made.now) }
    requires steps { draft.old.steps.items ≡ [] }
    requires known { draft.old.known.items ≡ [] }
    ensures { IfOk result (λ last. (basis : Basis) × (done : List Unfolding) × IsDraft (U.unfoldings unfolder.now) (map shown_literal literals.now) done basis draft.new × IsEnd (map shown_literal literals.now) basis draft.new last) }
{
    let mut basis = begun(alloc, literals)?;
    match write_unfoldings(alloc, unfolder, &mut basis, draft, made)? {
        Some(last) => Ok(last),
        None => {
            let last = write_conflict(alloc, &basis, draft)?;
            Ok(last)
        }
    }
}

/// The refutation of some literals, the facts and the negation of a goal, for which unfoldings were made in turn
/// until their equations and the literals had a conflict: steps that the check accepts.
pub fn refutation<U: Unfolder>(
    alloc: Global,
    unfolder: &U,
    literals: &[Literal],
    made: &[Unfolding],
) -> Result<Vec<Step>, Memory>
    requires plain { All IsPlainLiteral (map shown_literal literals.now) }
    requires turn { AreInTurn (U.unfoldings unfolder.now) (map shown_literal literals.now) made.now }
    requires conflict { Conflict no_unfoldings (map shown_literal literals.now ++ equations made.now) }
    ensures { IfOk result (λ steps. IsRefutation (U.unfoldings unfolder.now) (map shown_literal literals.now) steps.items) }
{
    let mut draft = empty(alloc);
    let last = write_refutation(alloc, unfolder, &mut draft, literals, made)?;
    draft.steps.push(Step::Plain(last))?;
    Ok(draft.steps)
}
