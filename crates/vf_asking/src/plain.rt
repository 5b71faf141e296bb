//! Which literals may be facts and goals.

ghost use Rattle.std.specs.Prelude.{◌↔◌, IsTrue};
ghost use Rattle.vf_formula.specs.Literals.{shown_literal};
ghost use Rattle.vf_question.specs.Plain.{IsPlainLiteral};
ghost use Rattle.vf_asking.specs.Plain.{CanBeAsked, HasRoom};

use vf_formula::Literal;
use vf_question::are_plain;

/// The number that is more than that of each bound that may be asked.
const ROOM: i128 = 1 << 100;

/// Whether a literal may be a fact: numbers within 2^100, and bounds between integer terms.
#[tactic(auto, using(crate::proofs::Testing::one_is_plain, crate::proofs::Testing::plain_is_one))]
pub fn can_be_fact(literal: &Literal) -> bool
    ensures { IsTrue result ↔ IsPlainLiteral (shown_literal literal.now) }
{
    are_plain(std::slice::from_ref(literal))
}

/// Whether the number of a bound is less than 2^100.
fn has_room(goal: &Literal) -> bool
    ensures { IsTrue result ↔ HasRoom (shown_literal goal.now) }
{
    match goal {
        Literal::AtMost(_, _, c) => *c < ROOM,
        _ => true,
    }
}

/// Whether a literal may be a goal: it may be a fact, and so may its negation.
pub fn can_be_asked(goal: &Literal) -> bool
    ensures { IsTrue result ↔ CanBeAsked (shown_literal goal.now) }
{
    can_be_fact(goal) && has_room(goal)
}
