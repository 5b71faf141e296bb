//! The closure with unfolding, decided.

ghost use Rattle.std.specs.Prelude.{◌≡◌, ◌≤◌, ◌<◌, ◌↔◌, length, map, All, IsTrue, IfOk, MatchOption};
ghost use Rattle.vf_closure.specs.Closure.{Conflict};
ghost use Rattle.vf_formula.specs.Literals.{shown_literal};
ghost use Rattle.vf_question.specs.Numbered.{terms_of};
ghost use Rattle.vf_question.specs.Plain.{IsPlainLiteral};
ghost use Rattle.vf_unfolding.specs.Rounds.{AreEnough};

use crate::path::Path;
use std::alloc::Global;
use vf_base::Memory;
use vf_formula::Literal;
use vf_question::MOST_TERMS;
use vf_unfold::Unfolder;

/// The path of some facts; none where they have more terms than a question may have.
pub fn path_of<U: Unfolder>(
    alloc: Global,
    unfolder: &U,
    facts: &[Literal],
) -> Result<Option<Path>, Memory>
    requires { All IsPlainLiteral (map shown_literal facts.now) }
    ensures { IfOk result
        (λ o. MatchOption o (MOST_TERMS < length (terms_of (map shown_literal facts.now)))
        (λ p. (length (terms_of (map shown_literal facts.now)) ≤ MOST_TERMS) × (p.now.facts ≡ map shown_literal facts.now) × AreEnough (U.unfoldings unfolder.now) p.now.facts p.now.made)) }
{
    let mut path = Path::new(alloc, unfolder)?;
    for fact in facts {
        path.push(alloc, unfolder, fact)?;
        if path.count() > MOST_TERMS {
            return Ok(None);
        }
    }
    Ok(Some(path))
}

/// Whether the closure of some literals has a conflict, fixpoints being unfolded to depth 4; none where
/// the literals have more terms than a question may have.
pub fn refuted<U: Unfolder>(
    alloc: Global,
    unfolder: &U,
    literals: &[Literal],
) -> Result<Option<bool>, Memory>
    requires { All IsPlainLiteral (map shown_literal literals.now) }
    ensures { IfOk result
        (λ o. MatchOption o (MOST_TERMS < length (terms_of (map shown_literal literals.now)))
        (λ yes. (length (terms_of (map shown_literal literals.now)) ≤ MOST_TERMS) × (IsTrue yes ↔ Conflict (U.unfoldings unfolder.now) (map shown_literal literals.now)))) }
{
    match path_of(alloc, unfolder, literals)? {
        Some(path) => Ok(Some(path.refuted())),
        None => Ok(None),
    }
}
