//! Refutations of questions along a path.

ghost use Rattle.std.specs.Prelude.{◌≡◌, ◌++◌, ◌∷◌, [], ⊤, List, map, All, IfOk, MatchOption};
ghost use Rattle.vf_closure.specs.Literals as pure;
ghost use Rattle.vf_closure.specs.Closure.{IsRefuted, Conflict, no_unfoldings};
ghost use Rattle.vf_formula.specs.Literals.{shown_literal};
ghost use Rattle.vf_question.specs.Plain.{IsPlainLiteral};
ghost use Rattle.vf_question.specs.Unfolded.{equations};
ghost use Rattle.vf_unfolding.specs.Rounds.{AreEnough, AreInTurn};
ghost use Rattle.vf_recheck.specs.Posed.{IsPosed};
ghost use Rattle.vf_recheck.specs.Refutations.{IsRefutation};

use crate::refuting::refutation;
use std::alloc::Global;
use vf_answer::denied;
use vf_base::Memory;
use vf_chains::short_steps;
use vf_formula::Literal;
use vf_question::Unfolding;
use vf_recheck::{Posed, Step, Tables, recheck, recheck_posed};
use vf_refute as refute;
use vf_unfold::Unfolder;
use vf_unfolding::Path;

/// Steps that unfold nothing, as steps of a refutation with unfolding.
fn as_plain(alloc: Global, steps: Vec<refute::Step>) -> Result<Vec<Step>, Memory> {
    let mut all = Vec::new(alloc);
    for step in steps {
        all.push(Step::Plain(step))?;
    }
    Ok(all)
}

/// Steps that the check accepts for a question, of one chain; none where it accepts none that are found.
fn short_for<U: Unfolder>(
    alloc: Global,
    unfolder: &U,
    question: &mut Posed,
) -> Result<Option<Vec<Step>>, Memory>
    requires { (literals : List pure.Literal) × IsPosed literals question.old × All IsPlainLiteral literals }
    ensures { IfOk result (λ o. (literals : List pure.Literal) → IsPosed literals question.old → MatchOption o ⊤ (λ steps. IsRefutation (U.unfoldings unfolder.now) literals steps.items)) }
{
    let Some(found) = short_steps(alloc, &question.nodes, &question.facts)? else {
        return Ok(None);
    };
    let steps = as_plain(alloc, found)?;
    if recheck_posed(alloc, unfolder, question, &steps)? {
        Ok(Some(steps))
    } else {
        Ok(None)
    }
}

/// A refutation of facts and the denial of a goal by one chain that has passed the check, where one is found.
fn short_under<U: Unfolder>(
    alloc: Global,
    unfolder: &U,
    tables: &mut Tables,
    facts: &[Literal],
    denial: &Literal,
) -> Result<Option<Vec<Step>>, Memory>
    requires facts { All IsPlainLiteral (map shown_literal facts.now) }
    requires plain { IsPlainLiteral (shown_literal denial.now) }
    ensures { IfOk result (λ o. MatchOption o ⊤ (λ steps. IsRefutation (U.unfoldings unfolder.now) (map shown_literal facts.now ++ shown_literal denial.now ∷ []) steps.items)) }
{
    tables.follow(alloc, facts)?;
    let mut question = tables.pose(alloc, denial)?;
    short_for(alloc, unfolder, &mut question)
}

/// Goes over a refutation of literals by the check, which accepts it.
fn confirm<U: Unfolder>(
    alloc: Global,
    unfolder: &U,
    literals: &[Literal],
    steps: &[Step],
) -> Result<(), Memory>
    requires plain { All IsPlainLiteral (map shown_literal literals.now) }
    requires refutation { IsRefutation (U.unfoldings unfolder.now) (map shown_literal literals.now) steps.now }
{
    if recheck(alloc, unfolder, literals, steps)? {
        Ok(())
    } else {
        unreachable!()
    }
}

/// A refutation of literals for which unfoldings were made in turn until they had a conflict, that has passed the
/// check.
fn long_of<U: Unfolder>(
    alloc: Global,
    unfolder: &U,
    literals: &[Literal],
    made: &[Unfolding],
) -> Result<Vec<Step>, Memory>
    requires plain { All IsPlainLiteral (map shown_literal literals.now) }
    requires turn { AreInTurn (U.unfoldings unfolder.now) (map shown_literal literals.now) made.now }
    requires conflict { Conflict no_unfoldings (map shown_literal literals.now ++ equations made.now) }
    ensures { IfOk result (λ steps. IsRefutation (U.unfoldings unfolder.now) (map shown_literal literals.now) steps.items) }
{
    let steps = refutation(alloc, unfolder, literals, made)?;
    confirm(alloc, unfolder, literals, &steps)?;
    Ok(steps)
}

/// The refutation of the facts of a path, for which enough was unfolded. It has passed the check.
fn refutation_at<U: Unfolder>(alloc: Global, unfolder: &U, path: &Path) -> Result<Vec<Step>, Memory>
    requires enough { AreEnough (U.unfoldings unfolder.now) path.now.now.facts path.now.now.made }
    requires plain { All IsPlainLiteral path.now.now.facts }
    requires conflict { Conflict (U.unfoldings unfolder.now) path.now.now.facts }
    ensures { IfOk result (λ steps. IsRefutation (U.unfoldings unfolder.now) path.now.now.facts steps.items) }
{
    long_of(alloc, unfolder, path.facts(), path.made())
}

/// The same behind a fact more. The path stays where it was.
fn long_under<U: Unfolder>(
    alloc: Global,
    unfolder: &U,
    path: &mut Path,
    denial: &Literal,
) -> Result<Vec<Step>, Memory>
    requires enough { AreEnough (U.unfoldings unfolder.now) path.old.now.facts path.old.now.made }
    requires facts { All IsPlainLiteral path.old.now.facts }
    requires plain { IsPlainLiteral (shown_literal denial.now) }
    requires conflict { Conflict (U.unfoldings unfolder.now) (path.old.now.facts ++ shown_literal denial.now ∷ []) }
    ensures refutation { IfOk result (λ steps. IsRefutation (U.unfoldings unfolder.now) (path.old.now.facts ++ shown_literal denial.now ∷ []) steps.items) }
    ensures stays { path.new ≡ path.old }
{
    path.push(alloc, unfolder, denial)?;
    let steps = refutation_at(alloc, unfolder, path);
    path.pop();
    steps
}

/// The refutation of the facts of a path and the denial of a goal, by one chain where one is found. The path stays
/// where it was.
fn refutation_under<U: Unfolder>(
    alloc: Global,
    unfolder: &U,
    tables: &mut Tables,
    path: &mut Path,
    denial: &Literal,
) -> Result<Vec<Step>, Memory>
    requires enough { AreEnough (U.unfoldings unfolder.now) path.old.now.facts path.old.now.made }
    requires facts { All IsPlainLiteral path.old.now.facts }
    requires plain { IsPlainLiteral (shown_literal denial.now) }
    requires conflict { Conflict (U.unfoldings unfolder.now) (path.old.now.facts ++ shown_literal denial.now ∷ []) }
    ensures refutation { IfOk result (λ steps. IsRefutation (U.unfoldings unfolder.now) (path.old.now.facts ++ shown_literal denial.now ∷ []) steps.items) }
    ensures stays { path.new ≡ path.old }
{
    match short_under(alloc, unfolder, tables, path.facts(), denial)? {
        Some(steps) => Ok(steps),
        None => long_under(alloc, unfolder, path, denial),
    }
}

/// The refutation of a goal's negation under the facts of a path, for which enough was unfolded, and which entail
/// the goal: steps that have passed the check, which never refuses them. The path stays where it was. The tables keep
/// the numbers of terms from one question to the next.
pub fn refutation_along<U: Unfolder>(
    alloc: Global,
    unfolder: &U,
    tables: &mut Tables,
    path: &mut Path,
    goal: &Literal,
) -> Result<Vec<Step>, Memory>
    requires enough { AreEnough (U.unfoldings unfolder.now) path.old.now.facts path.old.now.made }
    requires facts { All IsPlainLiteral path.old.now.facts }
    requires plain { All IsPlainLiteral (pure.denied (shown_literal goal.now)) }
    requires refuted { IsRefuted (U.unfoldings unfolder.now) path.old.now.facts (shown_literal goal.now) }
    ensures refutation { IfOk result (λ steps. IsRefutation (U.unfoldings unfolder.now) (path.old.now.facts ++ pure.denied (shown_literal goal.now)) steps.items) }
    ensures stays { path.new ≡ path.old }
{
    match denied(alloc, goal)? {
        Some(denial) => refutation_under(alloc, unfolder, tables, path, &denial),
        None => refutation_at(alloc, unfolder, path),
    }
}
