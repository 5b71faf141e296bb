//! Bodies of fixpoints whose results are taken as numbers.

ghost use Rattle.std.specs.Prelude.{◌≡◌, map, IfOk};
ghost use Rattle.vf_normal.specs.Sums.{as_integer};
ghost use Rattle.vf_defining.specs.Units.{case_of_integers, of_integers};

use std::alloc::Global;
use vf_base::{Memory, Sequence};
use vf_definitions::{Body, Case, CaseList};
use vf_formula::{Head, Kind, Term};

/// A term as one of integers: where it is not, the sum of it alone.
fn as_integer(alloc: Global, whole: Term) -> Result<Term, Memory>
    ensures { IfOk result (λ t. t ≡ as_integer whole) }
{
    match whole.head.kind() {
        Kind::Integer => Ok(whole),
        Kind::Other => {
            let mut factors = Sequence::new(alloc);
            factors.push(1)?;
            Term::with_one(alloc, Head::Sum(factors), whole)
        }
    }
}

/// A case whose result is taken as a number.
fn case_of_integers(alloc: Global, case: &Case) -> Result<Case, Memory>
    ensures { IfOk result (λ c. c ≡ case_of_integers case.now) }
{
    let copy = case.result.copy(alloc)?;
    Ok(Case {
        constructor: case.constructor.copy()?,
        names: case.names,
        result: as_integer(alloc, copy)?,
    })
}

/// Cases whose results are taken as numbers.
fn cases_of_integers(alloc: Global, cases: &CaseList) -> Result<CaseList, Memory>
    ensures { IfOk result (λ l. l ≡ map case_of_integers cases.now) }
{
    let mut taken = Sequence::new(alloc);
    for case in cases.as_slice() {
        taken.push(case_of_integers(alloc, case)?)?;
    }
    Ok(taken)
}

/// A body whose results are taken as numbers.
pub fn of_integers(alloc: Global, body: Body) -> Result<Body, Memory>
    ensures { IfOk result (λ b. b ≡ of_integers body) }
{
    match body {
        Body::Returns(result) => Ok(Body::Returns(as_integer(alloc, result)?)),
        Body::Switches(parameter, cases) => Ok(Body::Switches(
            parameter,
            cases_of_integers(alloc, &cases)?,
        )),
    }
}
