//! Unfoldings, derived one after the other.

ghost use Rattle.std.specs.Prelude.{◌≡◌, ◌<◌, ◌++◌, ◌∷◌, [], ◌^◌, List, length, IfOk, MatchOption};
ghost use Rattle.vf_closure.specs.Literals as pure;
ghost use Rattle.vf_closure.specs.Closure.{Unfoldings};
ghost use Rattle.vf_question.specs.declared.unfolding.Unfolding.{Unfolding};
ghost use Rattle.vf_question.specs.Unfolded.{IsNext};
ghost use Rattle.vf_interning.specs.Interned.{IsTermTable};
ghost use Rattle.vf_reasons.specs.Drafts.{IsDraft, IsEnd, DoesUnfold};

use crate::basis::Basis;
use crate::draft::{Draft, write};
use crate::ways::{Way, way_to};
use std::alloc::Global;
use vf_base::Memory;
use vf_interning::place;
use vf_question::Unfolding;
use vf_recheck::{Step, number_term};
use vf_refute as refute;
use vf_refute::{Derived, Fact};
use vf_unfold::Unfolder;

/// Writes the step that unfolds the application with a number, and its equation the other way round, and adds
/// the equation to the basis.
fn add_unfolding(
    alloc: Global,
    basis: &mut Basis,
    draft: &mut Draft,
    unfolding: &Unfolding,
    step: Step,
    number: u32,
) -> Result<(), Memory>
    requires table { IsTermTable basis.old.nodes.items basis.old.terms.items }
    ensures { IfOk result (λ _. (u : Unfoldings) (literals : List pure.Literal) (made : List Unfolding) → IsDraft u literals made basis.old draft.old → IsNext u literals made unfolding.now → DoesUnfold u basis.old.terms.items draft.old.known.items unfolding.now number step → IsDraft u literals (made ++ unfolding.now ∷ []) basis.new draft.new) }
{
    let equal = number_term(alloc, &mut basis.nodes, &mut basis.terms, &unfolding.body)?;
    let first = write(draft, step, Derived::AreEqual(number, equal))?;
    let back = Step::Plain(refute::Step::Symmetric(first));
    let second = write(draft, back, Derived::AreEqual(equal, number))?;
    basis.equations.push(second)?;
    basis.facts.push(Fact::Equal(number, equal))?;
    Ok(())
}

/// Writes the steps that derive an unfolding, which came next, and adds its equation; or those of a conflict,
/// where there is one without it, and answers the last.
pub(crate) fn unfold_next<U: Unfolder>(
    alloc: Global,
    unfolder: &U,
    basis: &mut Basis,
    draft: &mut Draft,
    unfolding: &Unfolding,
) -> Result<Option<refute::Step>, Memory>
    requires next { (literals : List pure.Literal) × (made : List Unfolding) × IsDraft (U.unfoldings unfolder.now) literals made basis.old draft.old × IsNext (U.unfoldings unfolder.now) literals made unfolding.now }
    ensures { IfOk result (λ o. (literals : List pure.Literal) (made : List Unfolding) → IsDraft (U.unfoldings unfolder.now) literals made basis.old draft.old → IsNext (U.unfoldings unfolder.now) literals made unfolding.now → MatchOption o (IsDraft (U.unfoldings unfolder.now) literals (made ++ unfolding.now ∷ []) basis.new draft.new) (λ last. IsDraft (U.unfoldings unfolder.now) literals made basis.new draft.new × IsEnd literals basis.new draft.new last)) }
{
    let number = place(&basis.terms, &unfolding.application) as u32;
    match way_to(alloc, unfolder, basis, draft, unfolding)? {
        Way::Body => {
            let step = Step::ToBody(number);
            add_unfolding(alloc, basis, draft, unfolding, step, number)?;
            Ok(None)
        }
        Way::Case(equal) => {
            let step = Step::ByCase(number, equal);
            add_unfolding(alloc, basis, draft, unfolding, step, number)?;
            Ok(None)
        }
        Way::Conflict(last) => Ok(Some(last)),
    }
}
