//! The steps that unfold an application.

ghost use Rattle.std.specs.Prelude.{◌≡◌, ◌↔◌, ℕ, All, IsTrue, IfOk, MatchOption};
ghost use Rattle.vf_refute.specs.Refutations.{HasDerived};
ghost use Rattle.vf_closure.specs.Terms as pure;
ghost use Rattle.vf_question.specs.Plain.{IsPlain};
ghost use Rattle.vf_interning.specs.Interned.{IsTermTable};
ghost use Rattle.vf_recheck.specs.Refutations.{IsBodyAt, IsOfConstructor, GoesBy, IsCaseBy, IsCaseAt, Unfolds, IsTold};

use crate::numbering::number_term;
use std::alloc::Global;
use vf_base::Memory;
use vf_formula::{Head, Term};
use vf_refute::Derived;
use vf_table::Node;
use vf_unfold::Unfolder;

/// Two terms that a step derived to be equal.
#[derive(Clone, Copy)]
struct Pair {
    left: u32,
    right: u32,
}

/// The equality of a step, if it derived one.
fn equality_at(known: &[Derived], a: u32) -> Option<Pair>
    ensures { MatchOption result ((x y : ℕ) → HasDerived known.now a (Derived.AreEqual x y) → ⊥) (λ p. HasDerived known.now a (Derived.AreEqual p.left p.right)) }
{
    match known.get(a as usize)? {
        Derived::AreEqual(x, y) => Some(Pair {
            left: *x,
            right: *y,
        }),
        _ => None,
    }
}

/// Whether a term is one of a constructor.
fn is_of_constructor(term: &Term) -> bool
    ensures { IsTrue result ↔ IsOfConstructor term.now }
{
    match &term.head {
        Head::Constructor(_) => true,
        _ => false,
    }
}

/// Whether an application goes by the term with a number.
fn goes_by<U: Unfolder>(unfolder: &U, terms: &[Term], application: &Term, number: u32) -> bool
    ensures { IsTrue result ↔ GoesBy (U.unfoldings unfolder.now) terms.now application.now number }
{
    match unfolder.switched(application) {
        Some(argument) => match terms.get(number as usize) {
            Some(term) => term.same(argument),
            None => false,
        },
        None => false,
    }
}

/// The case of an application for the constructor's term with a number.
fn case_by<U: Unfolder>(
    alloc: Global,
    unfolder: &U,
    terms: &[Term],
    application: &Term,
    number: u32,
) -> Result<Option<Term>, Memory>
    requires terms { All IsPlain terms.now }
    requires application { IsPlain application.now }
    ensures { IfOk result
        (λ o. MatchOption o ((b : pure.Term) → IsCaseBy (U.unfoldings unfolder.now) terms.now application.now number b → ⊥)
        (λ b. IsCaseBy (U.unfoldings unfolder.now) terms.now application.now number b × IsPlain b)) }
{
    match terms.get(number as usize) {
        Some(by) => {
            if !is_of_constructor(by) {
                return Ok(None);
            }
            let case = unfolder.case(alloc, application, by)?;
            Ok(case)
        }
        None => Ok(None),
    }
}

/// The case of the application with a number for the constructor's term to which a step says that the
/// argument that it goes by is equal.
fn case_at<U: Unfolder>(
    alloc: Global,
    unfolder: &U,
    terms: &[Term],
    known: &[Derived],
    number: u32,
    step: u32,
) -> Result<Option<Term>, Memory>
    requires { All IsPlain terms.now }
    ensures { IfOk result
        (λ o. MatchOption o ((b : pure.Term) → IsCaseAt (U.unfoldings unfolder.now) terms.now known.now number step b → ⊥)
        (λ b. IsCaseAt (U.unfoldings unfolder.now) terms.now known.now number step b × IsPlain b)) }
{
    match equality_at(known, step) {
        Some(equal) => match terms.get(number as usize) {
            Some(application) => {
                if !goes_by(unfolder, terms, application, equal.left) {
                    return Ok(None);
                }
                let case = case_by(alloc, unfolder, terms, application, equal.right)?;
                Ok(case)
            }
            None => Ok(None),
        },
        None => Ok(None),
    }
}

/// The body of the application with a number.
fn body_at<U: Unfolder>(
    alloc: Global,
    unfolder: &U,
    terms: &[Term],
    number: u32,
) -> Result<Option<Term>, Memory>
    requires { All IsPlain terms.now }
    ensures { IfOk result
        (λ o. MatchOption o ((b : pure.Term) → IsBodyAt (U.unfoldings unfolder.now) terms.now number b → ⊥)
        (λ b. IsBodyAt (U.unfoldings unfolder.now) terms.now number b × IsPlain b)) }
{
    match terms.get(number as usize) {
        Some(application) => {
            let body = unfolder.body(alloc, application)?;
            Ok(body)
        }
        None => Ok(None),
    }
}

/// Numbers the terms of what an application is unfolded to, and derives that it is equal to it.
fn unfold(
    alloc: Global,
    nodes: &mut Vec<Node>,
    terms: &mut Vec<Term>,
    number: u32,
    body: &Term,
) -> Result<Derived, Memory>
    requires table { IsTermTable nodes.old.items terms.old.items }
    requires plain { IsPlain body.now }
    ensures table { IfOk result (λ _. IsTermTable nodes.new.items terms.new.items) }
    ensures derived { IfOk result (λ d. Unfolds (λ b. b ≡ body.now) terms.old.items number d terms.new.items) }
{
    let equal = number_term(alloc, nodes, terms, body)?;
    Ok(Derived::AreEqual(number, equal))
}

/// Unfolds the application with a number to its body.
pub(crate) fn to_body<U: Unfolder>(
    alloc: Global,
    unfolder: &U,
    nodes: &mut Vec<Node>,
    terms: &mut Vec<Term>,
    number: u32,
) -> Result<Option<Derived>, Memory>
    requires table { IsTermTable nodes.old.items terms.old.items }
    requires plain { All IsPlain terms.old.items }
    ensures table { IfOk result (λ _. IsTermTable nodes.new.items terms.new.items) }
    ensures told { IfOk result (λ o. IsTold (Unfolds (IsBodyAt (U.unfoldings unfolder.now) terms.old.items number) terms.old.items number) terms.new.items o) }
{
    match body_at(alloc, unfolder, terms, number)? {
        Some(body) => match unfold(alloc, nodes, terms, number, &body) {
            Ok(derived) => Ok(Some(derived)),
            Err(fault) => Err(fault),
        },
        None => Ok(None),
    }
}

/// Unfolds the application with a number to its case for the constructor's term to which a step says
/// that the argument that it goes by is equal.
pub(crate) fn by_case<U: Unfolder>(
    alloc: Global,
    unfolder: &U,
    nodes: &mut Vec<Node>,
    terms: &mut Vec<Term>,
    known: &[Derived],
    number: u32,
    step: u32,
) -> Result<Option<Derived>, Memory>
    requires table { IsTermTable nodes.old.items terms.old.items }
    requires plain { All IsPlain terms.old.items }
    ensures table { IfOk result (λ _. IsTermTable nodes.new.items terms.new.items) }
    ensures told { IfOk result (λ o. IsTold (Unfolds (IsCaseAt (U.unfoldings unfolder.now) terms.old.items known.now number step) terms.old.items number) terms.new.items o) }
{
    match case_at(alloc, unfolder, terms, known, number, step)? {
        Some(body) => match unfold(alloc, nodes, terms, number, &body) {
            Ok(derived) => Ok(Some(derived)),
            Err(fault) => Err(fault),
        },
        None => Ok(None),
    }
}
