//! One round: the closure without unfolding, and what is unfolded next.

ghost use Rattle.std.specs.Prelude.{List, All, IfOk};
ghost use Rattle.vf_closure.specs.Literals as pure;
ghost use Rattle.vf_question.specs.Plain.{IsPlainLiteral};
ghost use Rattle.vf_question.specs.Unfolded.{AreRight};
ghost use Rattle.vf_unfolding.specs.Rounds.{AreKeptFor, IsRound};

use crate::depths::depths;
use crate::searching::find_next;
use std::alloc::Global;
use vf_base::Memory;
use vf_interning::Interning;
use vf_question::Unfolding;
use vf_unfold::Unfolder;

/// How a round ends.
#[derive(Debug, Drop)]
pub enum Round {
    /// The closure without unfolding has a conflict.
    Conflict,
    /// It has none, and nothing is left to unfold.
    Settled,
    /// It has none, and this comes next.
    Next(Unfolding),
}

/// One round, over the literals of the question and the equations of the unfoldings that were made, in
/// whichever order they came, with the numbers of the question's terms.
pub(crate) fn next_round<U: Unfolder>(
    alloc: Global,
    unfolder: &U,
    asked: &[u32],
    interning: &Interning,
    made: &[Unfolding],
) -> Result<Round, Memory>
    requires plain { All IsPlainLiteral interning.now.literals }
    ensures { IfOk result
        (λ r. (facts : List pure.Literal) → AreKeptFor interning.now.literals facts made.now asked.now → AreRight (U.unfoldings unfolder.now) facts made.now → IsRound (U.unfoldings unfolder.now) facts made.now r) }
{
    if interning.refuted() {
        return Ok(Round::Conflict);
    }
    let terms = interning.terms();
    let depths = depths(alloc, asked, made, terms)?;
    match find_next(alloc, unfolder, made, terms, &depths, interning)? {
        Some(next) => Ok(Round::Next(next)),
        None => Ok(Round::Settled),
    }
}
