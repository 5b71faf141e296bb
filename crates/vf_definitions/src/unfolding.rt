//! Unfolding applications by definitions.

ghost use Rattle.std.specs.Prelude.{◌≡◌, ◌∷◌, ◌++◌, IfOk, IsTrue, ◌↔◌};
ghost use Rattle.std.specs.Option.{option_copied, option_and_then};
ghost use Rattle.vf_model.specs.Values.{same_identity};
ghost use Rattle.vf_closure.specs.Terms as pure;
ghost use Rattle.vf_formula.specs.Heads.{shown_kind};
ghost use Rattle.vf_formula.specs.Rows.{row};
ghost use Rattle.vf_definitions.specs.Filled.{followed_by};
ghost use Rattle.vf_definitions.specs.Unfolded.{same_kind, fixpoint_for, case_for, body_for, returned, switched_over, case_result, case_returned};

use crate::definitions::Definitions;
use crate::filling::filled_form;
use crate::fixpoint::{Body, Case, Fixpoint};
use std::alloc::Global;
use vf_base::{Memory, Text};
use vf_formula::{Head, Kind, Term, TermList};
use vf_unfold::Unfolder;

/// Whether two kinds are one.
fn same_kind(a: Kind, b: Kind) -> bool
    ensures { result ≡ same_kind (shown_kind a) (shown_kind b) }
{
    match a {
        Kind::Integer => match b {
            Kind::Integer => true,
            Kind::Other => false,
        },
        Kind::Other => match b {
            Kind::Integer => false,
            Kind::Other => true,
        },
    }
}

/// Whether two identities are one.
#[tactic(auto, using(crate::proofs::Named::same_decides))]
fn same_identity(a: &Text, b: &Text) -> bool
    ensures { result ≡ same_identity a.now b.now }
{
    a.same(b)
}

/// The first fixpoint of a kind and a name.
fn fixpoint_for<'a>(fixpoints: &'a [Fixpoint], kind: Kind, identity: &Text) -> Option<&'a Fixpoint>
    ensures { option_copied result ≡ fixpoint_for fixpoints.now (shown_kind kind) identity.now }
{
    for fixpoint in fixpoints {
        if same_kind(fixpoint.kind, kind) && same_identity(&fixpoint.identity, identity) {
            return Some(fixpoint);
        }
    }
    None
}

/// The first case of a constructor.
fn case_for<'a>(cases: &'a [Case], constructor: &Text) -> Option<&'a Case>
    ensures { option_copied result ≡ case_for cases.now constructor.now }
{
    for case in cases {
        if same_identity(&case.constructor, constructor) {
            return Some(case);
        }
    }
    None
}

/// The body of the fixpoint that a term applies to as many arguments as it has parameters.
#[tactic(auto, using(crate::proofs::Rows::body_there, crate::proofs::Rows::body_counted_out, crate::proofs::Rows::body_missed))]
fn body_for<'a>(fixpoints: &'a [Fixpoint], application: &Term) -> Option<&'a Body>
    ensures { option_copied result ≡ body_for fixpoints.now application.now }
{
    match &application.head {
        Head::Fixpoint(kind, identity) => match fixpoint_for(fixpoints, *kind, identity) {
            Some(fixpoint) if fixpoint.parameters == application.parts.len() => {
                Some(&fixpoint.body)
            }
            _ => None,
        },
        _ => None,
    }
}

/// Terms in a row, and others behind them.
fn followed_by(alloc: Global, terms: &TermList, others: &TermList) -> Result<TermList, Memory>
    ensures { IfOk result (λ l. row l ≡ followed_by (row terms.now) (row others.now)) }
{
    let mut all = terms.copy(alloc)?;
    for other in others.as_slice() {
        all.push(other.copy(alloc)?)?;
    }
    Ok(all)
}

/// What a case returns at arguments and the parts of a constructor's term.
#[tactic(auto, using(crate::proofs::Rows::case_filled, crate::proofs::Rows::case_missed))]
fn case_result(
    alloc: Global,
    arguments: &TermList,
    parts: &TermList,
    case: &Case,
) -> Result<Option<Term>, Memory>
    ensures { IfOk result (λ o. o ≡ case_result (row arguments.now) (row parts.now) case.now) }
{
    if parts.len() != case.names {
        return Ok(None);
    }
    let all = followed_by(alloc, arguments, parts)?;
    filled_form(alloc, &all, &case.result)
}

/// What the case for a constructor's term returns.
fn case_returned(
    alloc: Global,
    arguments: &TermList,
    by: &Term,
    body: &Body,
) -> Result<Option<Term>, Memory>
    ensures { IfOk result (λ o. o ≡ case_returned (row arguments.now) by.now body.now) }
{
    let Head::Constructor(constructor) = &by.head else {
        return Ok(None);
    };
    let Body::Switches(_, cases) = body else {
        return Ok(None);
    };
    match case_for(cases.as_slice(), constructor) {
        Some(case) => case_result(alloc, arguments, &by.parts, case),
        None => Ok(None),
    }
}

/// What a body without a switch returns at arguments.
fn returned(alloc: Global, arguments: &TermList, body: &Body) -> Result<Option<Term>, Memory>
    ensures { IfOk result (λ o. o ≡ returned (row arguments.now) body.now) }
{
    match body {
        Body::Returns(result) => filled_form(alloc, arguments, result),
        Body::Switches(_, _) => Ok(None),
    }
}

/// The argument that a body switches over.
#[tactic(auto, using(crate::proofs::Rows::term_got))]
fn switched_over<'a>(arguments: &'a TermList, body: &Body) -> Option<&'a Term>
    ensures { option_copied result ≡ switched_over (row arguments.now) body.now }
{
    match body {
        Body::Returns(_) => None,
        Body::Switches(parameter, _) => arguments.get(*parameter),
    }
}

impl Unfolder for Definitions {
    ghost use Rattle.vf_definitions.specs.Unfolded.{unfoldings_of};

    ghost unfoldings = { unfoldings_of };

    fn body(&self, alloc: Global, application: &Term) -> Result<Option<Term>, Memory> {
        match body_for(self.as_slice(), application) {
            Some(body) => returned(alloc, &application.parts, body),
            None => Ok(None),
        }
    }

    fn switched<'a>(&self, application: &'a Term) -> Option<&'a Term> {
        match body_for(self.as_slice(), application) {
            Some(body) => switched_over(&application.parts, body),
            None => None,
        }
    }

    fn case(&self, alloc: Global, application: &Term, by: &Term) -> Result<Option<Term>, Memory> {
        match body_for(self.as_slice(), application) {
            Some(body) => case_returned(alloc, &application.parts, by, body),
            None => Ok(None),
        }
    }
}
