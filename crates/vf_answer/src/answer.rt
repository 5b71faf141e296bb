//! Answers to questions.

ghost use Rattle.std.specs.Prelude.{◌≡◌, ◌++◌, ◌∷◌, [], List, map, All, IfOk};
ghost use Rattle.vf_closure.specs.Closure.{Unfoldings};
ghost use Rattle.vf_closure.specs.Literals as pure;
ghost use Rattle.vf_formula.specs.Literals.{shown_literal};
ghost use Rattle.vf_question.specs.Plain.{IsPlainLiteral};
ghost use Rattle.vf_unfolding.specs.Rounds.{AreEnough};
ghost use Rattle.vf_answer.specs.Answers.{IsAnswer};

use crate::asking::denied;
use std::alloc::Global;
use vf_base::Memory;
use vf_formula::Literal;
use vf_question::MOST_TERMS;
use vf_unfold::Unfolder;
use vf_unfolding::{Path, path_of};

/// The answer to a question.
#[derive(Clone, Copy, Debug, PartialEq, Eq)]
pub enum Answer {
    /// There is a plain refutation of the goal's negation, so the facts entail the goal.
    Proved,
    /// There is none.
    Unknown,
    /// The question has more terms than a question may have.
    Terms,
}

/// The answer to a question of which the path has the facts and the goal's negation.
fn answer_at(path: &Path) -> Answer
    ensures { (u : Unfoldings) (facts : List pure.Literal) (goal : pure.Literal) → path.now.now.facts ≡ facts ++ pure.denied goal → AreEnough u path.now.now.facts path.now.now.made → IsAnswer u facts goal result }
{
    if path.count() > MOST_TERMS {
        return Answer::Terms;
    }
    if path.refuted() {
        return Answer::Proved;
    }
    Answer::Unknown
}

/// The answer to a question of a goal with this negation.
fn answered_under<U: Unfolder>(
    alloc: Global,
    unfolder: &U,
    path: &mut Path,
    denial: &Literal,
) -> Result<Answer, Memory>
    requires enough { AreEnough (U.unfoldings unfolder.now) path.old.now.facts path.old.now.made }
    requires plain { IsPlainLiteral (shown_literal denial.now) }
    ensures answer { IfOk result (λ a. (goal : pure.Literal) → pure.denied goal ≡ shown_literal denial.now ∷ [] → IsAnswer (U.unfoldings unfolder.now) path.old.now.facts goal a) }
    ensures stays { path.new ≡ path.old }
{
    path.push(alloc, unfolder, denial)?;
    let answer = answer_at(path);
    path.pop();
    Ok(answer)
}

/// Whether the facts of a path entail a goal by a plain refutation, where enough was unfolded for them. The
/// path stays where it was.
pub fn answered_along<U: Unfolder>(
    alloc: Global,
    unfolder: &U,
    path: &mut Path,
    goal: &Literal,
) -> Result<Answer, Memory>
    requires enough { AreEnough (U.unfoldings unfolder.now) path.old.now.facts path.old.now.made }
    requires plain { All IsPlainLiteral (pure.denied (shown_literal goal.now)) }
    ensures answer { IfOk result (IsAnswer (U.unfoldings unfolder.now) path.old.now.facts (shown_literal goal.now)) }
    ensures stays { path.new ≡ path.old }
{
    match denied(alloc, goal)? {
        Some(denial) => answered_under(alloc, unfolder, path, &denial),
        None => Ok(answer_at(path)),
    }
}

/// Whether facts entail a goal by a plain refutation.
pub fn answered<U: Unfolder>(
    alloc: Global,
    unfolder: &U,
    facts: &[Literal],
    goal: &Literal,
) -> Result<Answer, Memory>
    requires { All IsPlainLiteral (map shown_literal facts.now ++ pure.denied (shown_literal goal.now)) }
    ensures { IfOk result (IsAnswer (U.unfoldings unfolder.now) (map shown_literal facts.now) (shown_literal goal.now)) }
{
    match path_of(alloc, unfolder, facts)? {
        Some(found) => {
            let mut path = found;
            answered_along(alloc, unfolder, &mut path, goal)
        }
        None => Ok(Answer::Terms),
    }
}
