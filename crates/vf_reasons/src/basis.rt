//! The basis of a refutation.

ghost use Rattle.std.specs.Prelude.{◌≡◌, ◌<◌, ◌^◌, [], pos, length, map, All, IfOk};
ghost use Rattle.vf_closure.specs.Terms.{number};
ghost use Rattle.vf_formula.specs.Literals.{shown_literal};
ghost use Rattle.vf_question.specs.Numbered.{place, all_terms};
ghost use Rattle.vf_question.specs.Plain.{IsPlainLiteral};
ghost use Rattle.vf_reasons.specs.Drafts.{IsBasis};

use std::alloc::Global;
use vf_base::Memory;
use vf_formula::{Literal, Term};
use vf_interning::place;
use vf_recheck::{facts_over, number_all};
use vf_refute::Fact;
use vf_table::Node;

/// The most literals of a question: the number of each has 32 bits.
const MOST_LITERALS: usize = u32::MAX as usize;

/// The table of the terms of a question and of what was unfolded for it, and facts over it: the literals of
/// the question, that 0 is 0, and the equations of what was unfolded.
#[derive(Drop)]
pub(crate) struct Basis {
    pub(crate) nodes: Vec<Node>,
    pub(crate) terms: Vec<Term>,
    pub(crate) facts: Vec<Fact>,
    /// How many of the facts are the question's.
    pub(crate) asked: u32,
    /// For each equation, the step that derives it the other way round.
    pub(crate) equations: Vec<u32>,
}

/// The number of the term 0.
pub(crate) fn place_of_zero(alloc: Global, terms: &[Term]) -> u32
    requires { length terms.now < 2 ^ 32 }
    ensures { result ≡ place (number (pos 0)) terms.now }
{
    let zero = Term::of_number(alloc, 0);
    place(terms, &zero) as u32
}

/// The basis of a refutation of some literals, for which nothing was unfolded.
pub(crate) fn begun(alloc: Global, literals: &[Literal]) -> Result<Basis, Memory>
    requires plain { All IsPlainLiteral (map shown_literal literals.now) }
    ensures basis { IfOk result (λ b. IsBasis (map shown_literal literals.now) [] b) }
    ensures terms { IfOk result (λ b. b.terms.items ≡ all_terms (map shown_literal literals.now)) }
    ensures equations { IfOk result (λ b. b.equations.items ≡ []) }
{
    if literals.len() > MOST_LITERALS {
        return Err(Memory);
    }
    let mut nodes = Vec::new(alloc);
    let mut terms = Vec::new(alloc);
    number_all(alloc, &mut nodes, &mut terms, literals)?;
    let mut facts = facts_over(alloc, &terms, literals)?;
    let zero = place_of_zero(alloc, &terms);
    facts.push(Fact::Equal(zero, zero))?;
    Ok(Basis {
        nodes,
        terms,
        facts,
        asked: literals.len() as u32,
        equations: Vec::new(alloc),
    })
}
