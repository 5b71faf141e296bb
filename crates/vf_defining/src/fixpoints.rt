//! Bodies of fixpoints as terms.

ghost use Rattle.std.specs.Prelude.{◌≡◌, IfOk, OnOk};
ghost use Rattle.std.specs.Option.{option_copied};
ghost use Rattle.vf_syntax.specs.declared.item.FixpointBody.TheVariants as bodies;
ghost use Rattle.vf_equations.specs.Fixpoints as fixpoints;
ghost use Rattle.vf_equations.specs.Fixpoints.{around_fixpoint, result_of};
ghost use Rattle.vf_defining.specs.Fixpoints.{IsDefined};
ghost use Rattle.vf_defining.specs.Symbols.{without_locals};

use crate::bodies::{cases_read, place_among};
use crate::cases::cases_given;
use crate::switching::switch_checked;
use crate::symbols::value_read;
use crate::values::value_checked;
use std::alloc::Global;
use vf_base::{Memory, RuleFault, Sequence, Text};
use vf_declared::declaration::GhostDeclaration;
use vf_declared::scope::Scope;
use vf_definitions::Body;
use vf_sorting::Context;
use vf_sorting::kinds::int_sort;
use vf_sorts::{Sort, Unknowns};
use vf_syntax::ghost_expr::GhostExpr;
use vf_syntax::item::{FixpointBody, FixpointCase};
use vf_syntax::written::Name;

/// What stands around the body of the fixpoint with a number.
fn around_fixpoint(number: usize) -> Context
    ensures { result ≡ around_fixpoint number }
{
    Context {
        result: None,
        has_this: false,
        has_thread: false,
        own: Some(number),
    }
}

/// The sort of the result of the fixpoint with a number.
fn result_of(alloc: Global, scope: &Scope, number: usize) -> Result<Sort, Memory>
    ensures { IfOk result (λ t. t ≡ result_of scope.now number) }
{
    match scope.ghost_declaration(number) {
        Some(GhostDeclaration::Fixpoint(fixpoint)) => fixpoint.result.copy(alloc),
        _ => Ok(int_sort(alloc)),
    }
}

/// The value of the fixpoint with a number, where its parameters are the locals.
#[tactic(auto, using(crate::proofs::Defined::memory, crate::proofs::Defined::value_stops, crate::proofs::Defined::value_defined))]
fn value_defined(
    alloc: Global,
    scope: &Scope,
    paths: &[Text],
    number: usize,
    value: &GhostExpr,
) -> Result<Body, RuleFault>
    ensures { IsDefined scope.now paths.now number (bodies.Value value.now) result }
{
    let around = around_fixpoint(number);
    let sort = result_of(alloc, scope, number)?;
    let mut unknowns = Unknowns::new(alloc);
    value_checked(alloc, scope, &around, &sort, &mut unknowns, value)?;
    let reading = value_read(alloc, scope, &around, &unknowns, paths, &sort, 0, value)?;
    Ok(Body::Returns(reading.term))
}

/// The values of its cases.
#[tactic(auto, using(crate::proofs::Defined::memory, crate::proofs::Defined::switch_stops, crate::proofs::Defined::cases_stop, crate::proofs::Defined::cases_defined, crate::proofs::Defined::cases_alone))]
fn switch_defined(
    alloc: Global,
    scope: &mut Scope,
    paths: &[Text],
    number: usize,
    switched: &Name,
    cases: &Sequence<FixpointCase>,
) -> Result<Body, RuleFault>
    ensures defined { IsDefined scope.old paths.now number (bodies.Switch switched.now cases.now) result }
    ensures rest { OnOk result (without_locals scope.new ≡ without_locals scope.old) }
{
    let around = around_fixpoint(number);
    let sort = result_of(alloc, scope, number)?;
    let mut unknowns = Unknowns::new(alloc);
    let count = switch_checked(alloc, scope, &mut unknowns, switched, cases)?;
    cases_given(alloc, scope, &around, &sort, &mut unknowns, count, cases)?;
    let place = place_among(scope, switched);
    let cases = cases_read(alloc, scope, &around, &unknowns, paths, &sort, count, cases)?;
    Ok(Body::Switches(place, cases))
}

/// The body of the fixpoint with a number as terms over its parameters, which are the locals. What is
/// declared behind it may have other locals.
///
/// # Errors
///
/// Refused where the body is refused with what is declared there.
pub(crate) fn define_body(
    alloc: Global,
    scope: &mut Scope,
    paths: &[Text],
    number: usize,
    body: &FixpointBody,
) -> Result<Body, RuleFault>
    ensures defined { IsDefined scope.old paths.now number body.now result }
    ensures rest { OnOk result (without_locals scope.new ≡ without_locals scope.old) }
{
    match body {
        FixpointBody::Value(value) => value_defined(alloc, scope, paths, number, value),
        FixpointBody::Switch(switched, cases) => {
            switch_defined(alloc, scope, paths, number, switched, cases)
        }
    }
}
