//! The numbers of the facts' terms.

ghost use Rattle.std.specs.Prelude.{◌≡◌, ◌↔◌, ◌<◌, length, map, take, Contains, All, IsTrue, OnOk};
ghost use Rattle.vf_closure.specs.Terms as pure;
ghost use Rattle.vf_closure.specs.Terms.{IsWithin};
ghost use Rattle.vf_closure.specs.Literals.{compares};
ghost use Rattle.vf_formula.specs.Literals.{shown_literal};
ghost use Rattle.vf_question.specs.Numbered.{place, with_one, with_term, with_all, all_terms};
ghost use Rattle.vf_question.specs.Questions.{at};

use vf_base::Memory;
use vf_formula::{Literal, Term};
use vf_interning::{Interning, place};

/// Whether a number is among others.
pub(crate) fn is_among(numbers: &[u32], number: u32) -> bool
    ensures { IsTrue result ↔ Contains numbers.now number }
{
    for other in numbers {
        if *other == number {
            return true;
        }
    }
    false
}

/// Notes the number of a term, unless it is noted.
fn mark_one(interning: &Interning, asked: &mut Vec<u32>, term: &Term) -> Result<(), Memory>
    requires there { place term.now (all_terms interning.now.literals) < length (all_terms interning.now.literals) }
    requires within { All (λ k. k < length (all_terms interning.now.literals)) asked.old.items }
    ensures terms { OnOk result (map (at (all_terms interning.now.literals)) asked.new.items ≡ with_one term.now (map (at (all_terms interning.now.literals)) asked.old.items)) }
    ensures within { All (λ k. k < length (all_terms interning.now.literals)) asked.new.items }
    ensures kept { take (length asked.old.items) asked.new.items ≡ asked.old.items }
{
    let number = place(interning.terms(), term) as u32;
    if is_among(asked, number) {
        return Ok(());
    }
    asked.push(number)?;
    Ok(())
}

/// Notes the numbers of a term's parts and then its own, each unless it is noted.
fn mark_term(interning: &Interning, asked: &mut Vec<u32>, term: &Term) -> Result<(), Memory>
    requires there { (s : pure.Term) → IsWithin s term.now → place s (all_terms interning.now.literals) < length (all_terms interning.now.literals) }
    requires within { All (λ k. k < length (all_terms interning.now.literals)) asked.old.items }
    ensures terms { OnOk result (map (at (all_terms interning.now.literals)) asked.new.items ≡ with_term term.now (map (at (all_terms interning.now.literals)) asked.old.items)) }
    ensures within { All (λ k. k < length (all_terms interning.now.literals)) asked.new.items }
    ensures kept { take (length asked.old.items) asked.new.items ≡ asked.old.items }
{
    for part in term.parts.as_slice() {
        mark_term(interning, asked, part)?;
    }
    mark_one(interning, asked, term)
}

/// The same with two terms.
fn mark_both(interning: &Interning, asked: &mut Vec<u32>, a: &Term, b: &Term) -> Result<(), Memory>
    requires first { (s : pure.Term) → IsWithin s a.now → place s (all_terms interning.now.literals) < length (all_terms interning.now.literals) }
    requires second { (s : pure.Term) → IsWithin s b.now → place s (all_terms interning.now.literals) < length (all_terms interning.now.literals) }
    requires within { All (λ k. k < length (all_terms interning.now.literals)) asked.old.items }
    ensures terms { OnOk result (map (at (all_terms interning.now.literals)) asked.new.items ≡ with_term b.now (with_term a.now (map (at (all_terms interning.now.literals)) asked.old.items))) }
    ensures within { All (λ k. k < length (all_terms interning.now.literals)) asked.new.items }
    ensures kept { take (length asked.old.items) asked.new.items ≡ asked.old.items }
{
    mark_term(interning, asked, a)?;
    mark_term(interning, asked, b)
}

/// The same with the terms of a literal, which is among those that are kept.
pub(crate) fn mark_literal(
    interning: &Interning,
    asked: &mut Vec<u32>,
    literal: &Literal,
) -> Result<(), Memory>
    requires there { Contains interning.now.literals (shown_literal literal.now) }
    requires within { All (λ k. k < length (all_terms interning.now.literals)) asked.old.items }
    ensures terms { OnOk result (map (at (all_terms interning.now.literals)) asked.new.items ≡ with_all (compares (shown_literal literal.now)) (map (at (all_terms interning.now.literals)) asked.old.items)) }
    ensures within { All (λ k. k < length (all_terms interning.now.literals)) asked.new.items }
    ensures kept { take (length asked.old.items) asked.new.items ≡ asked.old.items }
{
    match literal {
        Literal::Equal(a, b) => mark_both(interning, asked, a, b),
        Literal::NotEqual(a, b) => mark_both(interning, asked, a, b),
        Literal::AtMost(p, n, _) => mark_both(interning, asked, p, n),
        Literal::Difference(p, n, _) => mark_both(interning, asked, p, n),
        Literal::NotDifference(p, n, _) => mark_both(interning, asked, p, n),
        Literal::False => Ok(()),
    }
}
