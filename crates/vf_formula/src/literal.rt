//! Literals: the facts and the goals of questions.

ghost use Rattle.std.specs.Prelude.{◌≡◌, IfOk};

use crate::term::Term;
use std::alloc::Global;
use vf_base::Memory;

/// A fact or a goal.
#[derive(Debug, Drop)]
pub enum Literal {
    /// The two terms are equal.
    Equal(Term, Term),
    /// The two terms are not equal.
    NotEqual(Term, Term),
    /// The first term less the second is at most the number.
    AtMost(Term, Term, i128),
    /// The first term less the second is the number.
    Difference(Term, Term, i128),
    /// The first term less the second is not the number.
    NotDifference(Term, Term, i128),
    /// What nothing meets.
    False,
}

/// Two terms again.
fn both(alloc: Global, a: &Term, b: &Term) -> Result<(Term, Term), Memory>
    ensures { IfOk result (λ p. p ≡ (a.now, b.now)) }
{
    let first = a.copy(alloc)?;
    let second = b.copy(alloc)?;
    Ok((first, second))
}

impl Literal {
    /// The same literal again.
    pub fn copy(&self, alloc: Global) -> Result<Literal, Memory>
        ensures { IfOk result (λ l. l ≡ self.now) }
    {
        match self {
            Literal::Equal(a, b) => {
                let (a, b) = both(alloc, a, b)?;
                Ok(Literal::Equal(a, b))
            }
            Literal::NotEqual(a, b) => {
                let (a, b) = both(alloc, a, b)?;
                Ok(Literal::NotEqual(a, b))
            }
            Literal::AtMost(p, n, c) => {
                let (p, n) = both(alloc, p, n)?;
                Ok(Literal::AtMost(p, n, *c))
            }
            Literal::Difference(p, n, c) => {
                let (p, n) = both(alloc, p, n)?;
                Ok(Literal::Difference(p, n, *c))
            }
            Literal::NotDifference(p, n, c) => {
                let (p, n) = both(alloc, p, n)?;
                Ok(Literal::NotDifference(p, n, *c))
            }
            Literal::False => Ok(Literal::False),
        }
    }
}
