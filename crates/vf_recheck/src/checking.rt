//! The check of a refutation.

ghost use Rattle.std.specs.Prelude.{◌≡◌, ◌↔◌, List, map, All, IsTrue, IfOk};
ghost use Rattle.vf_closure.specs.Literals as pure;
ghost use Rattle.vf_formula.specs.Literals.{shown_literal};
ghost use Rattle.vf_question.specs.Plain.{IsPlain, IsPlainLiteral};
ghost use Rattle.vf_interning.specs.Interned.{IsTermTable};
ghost use Rattle.vf_recheck.specs.Closure.{HasConflict};
ghost use Rattle.vf_recheck.specs.Posed.{IsPosed};
ghost use Rattle.vf_question.specs.Numbered.{all_terms};
ghost use Rattle.vf_recheck.specs.Refutations.{GoesOn, Ends, IsTold, IsRefutation, facts_over};

use crate::ending::ends;
use crate::posing::{Posed, question_of};
use crate::steps::Step;
use crate::unfolding::{by_case, to_body};
use std::alloc::Global;
use vf_base::Memory;
use vf_formula::{Literal, Term};
use vf_refute::{Derived, Fact, derive};
use vf_table::Node;
use vf_unfold::Unfolder;

/// What a step derives, if it is an instance of its kind and does not end the refutation. The terms of
/// what it unfolds are numbered behind the others.
fn go_on<U: Unfolder>(
    alloc: Global,
    unfolder: &U,
    nodes: &mut Vec<Node>,
    terms: &mut Vec<Term>,
    facts: &[Fact],
    known: &[Derived],
    step: &Step,
) -> Result<Option<Derived>, Memory>
    requires table { IsTermTable nodes.old.items terms.old.items }
    requires plain { All IsPlain terms.old.items }
    ensures table { IfOk result (λ _. IsTermTable nodes.new.items terms.new.items) }
    ensures told { IfOk result (λ o. IsTold (GoesOn (U.unfoldings unfolder.now) facts.now terms.old.items known.now step.now) terms.new.items o) }
{
    match step {
        Step::Plain(step) => Ok(derive(nodes, facts, known, step)),
        Step::ToBody(number) => to_body(alloc, unfolder, nodes, terms, *number),
        Step::ByCase(number, equal) => {
            by_case(alloc, unfolder, nodes, terms, known, *number, *equal)
        }
    }
}

/// Whether a step is a last one, and names a conflict.
fn is_end(nodes: &[Node], terms: &[Term], facts: &[Fact], known: &[Derived], step: &Step) -> bool
    requires { IsTermTable nodes.now terms.now }
    ensures { IsTrue result ↔ Ends facts.now terms.now known.now step.now }
{
    let _ = terms;
    match step {
        Step::Plain(step) => ends(nodes, facts, known, step),
        _ => false,
    }
}

/// Goes over the steps once, over a table of terms and 0 and facts over it.
fn check<U: Unfolder>(
    alloc: Global,
    unfolder: &U,
    nodes: &mut Vec<Node>,
    terms: &mut Vec<Term>,
    facts: &[Fact],
    steps: &[Step],
) -> Result<bool, Memory>
    requires table { IsTermTable nodes.old.items terms.old.items }
    requires plain { All IsPlain terms.old.items }
    ensures { IfOk result (λ yes. (literals : List pure.Literal) → terms.old.items ≡ all_terms literals → facts.now ≡ facts_over literals → IsTrue yes ↔ IsRefutation (U.unfoldings unfolder.now) literals steps.now) }
{
    let mut known: Vec<Derived> = Vec::new(alloc);
    for (i, step) in steps.iter().enumerate() {
        if i + 1 == steps.len() {
            return Ok(is_end(nodes, terms, facts, &known, step));
        }
        match go_on(alloc, unfolder, nodes, terms, facts, &known, step)? {
            Some(derived) => known.push(derived)?,
            None => return Ok(false),
        }
    }
    Ok(false)
}

/// Whether steps refute the literals of a question, as [`recheck`] says. The terms of what they unfold are numbered
/// behind the question's.
pub fn recheck_posed<U: Unfolder>(
    alloc: Global,
    unfolder: &U,
    question: &mut Posed,
    steps: &[Step],
) -> Result<bool, Memory>
    requires { (literals : List pure.Literal) × IsPosed literals question.old × All IsPlainLiteral literals }
    ensures { IfOk result (λ yes. (literals : List pure.Literal) → IsPosed literals question.old → IsTrue yes ↔ IsRefutation (U.unfoldings unfolder.now) literals steps.now) }
{
    check(
        alloc,
        unfolder,
        &mut question.nodes,
        &mut question.terms,
        &question.facts,
        steps,
    )
}

/// Whether steps refute some literals, the facts and the negation of a goal: each but the last derives
/// something from the literals and from earlier steps, or by unfolding an application, and the last, and
/// no other, names a conflict.
pub fn recheck<U: Unfolder>(
    alloc: Global,
    unfolder: &U,
    literals: &[Literal],
    steps: &[Step],
) -> Result<bool, Memory>
    requires { All IsPlainLiteral (map shown_literal literals.now) }
    ensures exact { IfOk result (λ yes. IsTrue yes ↔ IsRefutation (U.unfoldings unfolder.now) (map shown_literal literals.now) steps.now) }
    ensures sound { IfOk result (λ yes. IsTrue yes → HasConflict (U.unfoldings unfolder.now) (map shown_literal literals.now)) }
{
    let mut question = question_of(alloc, literals)?;
    recheck_posed(alloc, unfolder, &mut question, steps)
}
