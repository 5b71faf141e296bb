//! Rounds until nothing is left to unfold.

ghost use Rattle.std.specs.Prelude.{◌≡◌, ◌++◌, ◌∷◌, [], length, take, map, IfOk, OnOk};
ghost use Rattle.vf_formula.specs.Literals.{shown_literal};
ghost use Rattle.vf_question.specs.Plain.{IsPlain};
ghost use Rattle.vf_question.specs.Unfolded.{equation};
ghost use Rattle.vf_unfolding.specs.Rounds.{AreKeptFor, AreInTurn, AreEnough};

use crate::round::{Round, next_round};
use std::alloc::Global;
use vf_base::Memory;
use vf_formula::Literal;
use vf_interning::Interning;
use vf_question::{Unfolding, right_is_sound, settled_is_enough, unfolding_ends};
use vf_unfold::Unfolder;

/// Adds the equation of an unfolding.
fn assume_equation(
    alloc: Global,
    interning: &mut Interning,
    unfolding: &Unfolding,
) -> Result<(), Memory>
    requires application { IsPlain unfolding.now.application }
    requires body { IsPlain unfolding.now.body }
    ensures literals { OnOk result (interning.new.literals ≡ interning.old.literals ++ equation unfolding.now ∷ []) }
    ensures levels { interning.new.levels ≡ interning.old.levels }
{
    interning.assume_equal(alloc, &unfolding.application, &unfolding.body)
}

/// Unfolds what facts ask for, round by round, until there is a conflict or nothing is left. Only the
/// contract speaks of the facts.
pub(crate) fn settle<U: Unfolder>(
    alloc: Global,
    unfolder: &U,
    interning: &mut Interning,
    facts: &[Literal],
    asked: &[u32],
    made: &mut Vec<Unfolding>,
) -> Result<(), Memory>
    requires kept { AreKeptFor interning.old.literals (map shown_literal facts.now) made.old.items asked.now }
    requires turn { AreInTurn (U.unfoldings unfolder.now) (map shown_literal facts.now) made.old.items }
    ensures kept { IfOk result (λ _. AreKeptFor interning.new.literals (map shown_literal facts.now) made.new.items asked.now) }
    ensures enough { IfOk result (λ _. AreEnough (U.unfoldings unfolder.now) (map shown_literal facts.now) made.new.items) }
    ensures levels { interning.new.levels ≡ interning.old.levels }
    ensures made { take (length made.old.items) made.new.items ≡ made.old.items }
{
    let _ = facts;
    right_is_sound();
    settled_is_enough();
    unfolding_ends();
    'rounds: loop {
        match next_round(alloc, unfolder, asked, interning, made)? {
            Round::Conflict => return Ok(()),
            Round::Settled => return Ok(()),
            Round::Next(next) => {
                assume_equation(alloc, interning, &next)?;
                made.push(next)?;
            }
        }
    }
}
