//! Literals as facts over numbers.

ghost use Rattle.std.specs.Prelude.{◌≡◌, length, take, IfOk, OnOk};
ghost use Rattle.vf_formula.specs.Literals.{shown_literal};
ghost use Rattle.vf_closure.specs.Literals.{compares};
ghost use Rattle.vf_question.specs.Numbered.{place, with_term, with_all};
ghost use Rattle.vf_question.specs.Tabled.{tabled_fact};
ghost use Rattle.vf_question.specs.Plain.{IsPlain, IsPlainLiteral};
ghost use Rattle.vf_interning.specs.Interned.{IsTermTable};

use crate::numbering::number_term;
use std::alloc::Global;
use vf_base::Memory;
use vf_combination::Combination;
use vf_formula::{Literal, Term};
use vf_refute::Fact;

/// The numbers of two terms.
#[derive(Clone, Copy)]
pub(crate) struct Pair {
    pub first: u32,
    pub second: u32,
}

/// Answers the numbers of two terms, which are put behind their parts where they are not there.
pub(crate) fn number_both(
    alloc: Global,
    combination: &mut Combination,
    terms: &mut Vec<Term>,
    a: &Term,
    b: &Term,
) -> Result<Pair, Memory>
    requires table { IsTermTable combination.old.nodes terms.old.items }
    requires first { IsPlain a.now }
    requires second { IsPlain b.now }
    ensures table { IfOk result (λ _. IsTermTable combination.new.nodes terms.new.items) }
    ensures terms { OnOk result (terms.new.items ≡ with_term b.now (with_term a.now terms.old.items)) }
    ensures numbers { IfOk result (λ p. (p.first ≡ place a.now terms.new.items) × (p.second ≡ place b.now terms.new.items)) }
    ensures kept { take (length terms.old.items) terms.new.items ≡ terms.old.items }
    ensures facts { combination.new.facts ≡ combination.old.facts }
    ensures levels { combination.new.levels ≡ combination.old.levels }
{
    let first = number_term(alloc, combination, terms, a)?;
    let second = number_term(alloc, combination, terms, b)?;
    Ok(Pair { first, second })
}

/// Answers the fact that a literal is over the numbers of its terms, which are put behind their parts
/// where they are not there.
pub(crate) fn fact_of(
    alloc: Global,
    combination: &mut Combination,
    terms: &mut Vec<Term>,
    literal: &Literal,
) -> Result<Fact, Memory>
    requires table { IsTermTable combination.old.nodes terms.old.items }
    requires plain { IsPlainLiteral (shown_literal literal.now) }
    ensures table { IfOk result (λ _. IsTermTable combination.new.nodes terms.new.items) }
    ensures terms { OnOk result (terms.new.items ≡ with_all (compares (shown_literal literal.now)) terms.old.items) }
    ensures fact { IfOk result (λ f. f ≡ tabled_fact terms.new.items (shown_literal literal.now)) }
    ensures kept { take (length terms.old.items) terms.new.items ≡ terms.old.items }
    ensures facts { combination.new.facts ≡ combination.old.facts }
    ensures levels { combination.new.levels ≡ combination.old.levels }
{
    match literal {
        Literal::Equal(a, b) => {
            let pair = number_both(alloc, combination, terms, a, b)?;
            Ok(Fact::Equal(pair.first, pair.second))
        }
        Literal::NotEqual(a, b) => {
            let pair = number_both(alloc, combination, terms, a, b)?;
            Ok(Fact::NotEqual(pair.first, pair.second))
        }
        Literal::AtMost(p, n, c) => {
            let pair = number_both(alloc, combination, terms, p, n)?;
            Ok(Fact::AtMost(pair.first, pair.second, *c))
        }
        Literal::Difference(p, n, c) => {
            let pair = number_both(alloc, combination, terms, p, n)?;
            Ok(Fact::Difference(pair.first, pair.second, *c))
        }
        Literal::NotDifference(p, n, c) => {
            let pair = number_both(alloc, combination, terms, p, n)?;
            Ok(Fact::NotDifference(pair.first, pair.second, *c))
        }
        Literal::False => Ok(Fact::False),
    }
}
