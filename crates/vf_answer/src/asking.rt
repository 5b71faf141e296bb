//! The literals of a question.

ghost use Rattle.std.specs.Prelude.{◌≡◌, ◌↔◌, ◌^◌, ◌∷◌, [], ◌++◌, map, IsTrue, IfOk, MatchOption};
ghost use Rattle.vf_closure.specs.Literals as pure;
ghost use Rattle.vf_formula.specs.Literals.{shown_literal};
ghost use Rattle.vf_arith.specs.Paths.{IsSmall};
ghost use Rattle.vf_answer.specs.Answers.{CanBeDenied};

use std::alloc::Global;
use vf_base::Memory;
use vf_formula::Literal;

/// The most that the number of a bound can be that is denied.
const MOST_DENIED: i128 = 1 << 101;

/// Whether a goal can be denied: the number of a bound is within 2^101.
pub fn can_be_denied(goal: &Literal) -> bool
    ensures { IsTrue result ↔ CanBeDenied (shown_literal goal.now) }
{
    match goal {
        Literal::AtMost(_, _, c) => is_deniable(*c),
        _ => true,
    }
}

/// Whether a number is within 2^101.
fn is_deniable(c: i128) -> bool
    ensures { IsTrue result ↔ IsSmall (2 ^ 101) c }
{
    -MOST_DENIED <= c && c <= MOST_DENIED
}

/// The negation of a goal; none for `false`, which fails always.
pub fn denied(alloc: Global, goal: &Literal) -> Result<Option<Literal>, Memory>
    requires { CanBeDenied (shown_literal goal.now) }
    ensures { IfOk result (λ o. MatchOption o (pure.denied (shown_literal goal.now) ≡ []) (λ l. pure.denied (shown_literal goal.now) ≡ shown_literal l ∷ [])) }
{
    match goal {
        Literal::Equal(a, b) => Ok(Some(Literal::NotEqual(a.copy(alloc)?, b.copy(alloc)?))),
        Literal::NotEqual(a, b) => Ok(Some(Literal::Equal(a.copy(alloc)?, b.copy(alloc)?))),
        Literal::AtMost(p, n, c) => {
            Ok(Some(Literal::AtMost(n.copy(alloc)?, p.copy(alloc)?, -*c - 1)))
        }
        Literal::Difference(p, n, c) => {
            Ok(Some(Literal::NotDifference(p.copy(alloc)?, n.copy(alloc)?, *c)))
        }
        Literal::NotDifference(p, n, c) => {
            Ok(Some(Literal::Difference(p.copy(alloc)?, n.copy(alloc)?, *c)))
        }
        Literal::False => Ok(None),
    }
}

/// The same literals again.
fn copies(alloc: Global, literals: &[Literal]) -> Result<Vec<Literal>, Memory>
    ensures { IfOk result (λ v. v.items ≡ literals.now) }
{
    let mut copies = Vec::new(alloc);
    for literal in literals {
        copies.push(literal.copy(alloc)?)?;
    }
    Ok(copies)
}

/// The literals of a question: its facts, and the negation of its goal.
pub fn question(alloc: Global, facts: &[Literal], goal: &Literal) -> Result<Vec<Literal>, Memory>
    requires { CanBeDenied (shown_literal goal.now) }
    ensures { IfOk result (λ v. map shown_literal v.items ≡ map shown_literal facts.now ++ pure.denied (shown_literal goal.now)) }
{
    let mut literals = copies(alloc, facts)?;
    match denied(alloc, goal)? {
        Some(literal) => literals.push(literal)?,
        None => {}
    }
    Ok(literals)
}
