//! Literals as facts over the numbers of their terms.

ghost use Rattle.std.specs.Prelude.{◌≡◌, ◌<◌, ◌^◌, length, map, IfOk};
ghost use Rattle.vf_formula.specs.Literals.{shown_literal};
ghost use Rattle.vf_question.specs.Numbered.{place};
ghost use Rattle.vf_question.specs.Tabled.{tabled_fact};

use std::alloc::Global;
use vf_base::Memory;
use vf_formula::{Literal, Term};
use vf_interning::place;
use vf_refute::Fact;

/// The number of a term.
fn number(terms: &[Term], term: &Term) -> u32
    requires { length terms.now < 2 ^ 32 }
    ensures { result ≡ place term.now terms.now }
{
    place(terms, term) as u32
}

/// A literal as a fact over the numbers of some terms.
pub(crate) fn fact(terms: &[Term], literal: &Literal) -> Fact
    requires { length terms.now < 2 ^ 32 }
    ensures { result ≡ tabled_fact terms.now (shown_literal literal.now) }
{
    match literal {
        Literal::Equal(a, b) => Fact::Equal(number(terms, a), number(terms, b)),
        Literal::NotEqual(a, b) => Fact::NotEqual(number(terms, a), number(terms, b)),
        Literal::AtMost(p, n, c) => Fact::AtMost(number(terms, p), number(terms, n), *c),
        Literal::Difference(p, n, c) => Fact::Difference(number(terms, p), number(terms, n), *c),
        Literal::NotDifference(p, n, c) => {
            Fact::NotDifference(number(terms, p), number(terms, n), *c)
        }
        Literal::False => Fact::False,
    }
}

/// Literals as facts over the numbers of some terms.
pub fn facts_over(alloc: Global, terms: &[Term], literals: &[Literal]) -> Result<Vec<Fact>, Memory>
    requires { length terms.now < 2 ^ 32 }
    ensures { IfOk result (λ v. v.items ≡ map (tabled_fact terms.now) (map shown_literal literals.now)) }
{
    let mut facts = Vec::new(alloc);
    for literal in literals {
        facts.push(fact(terms, literal))?;
    }
    Ok(facts)
}
