//! Whole fixpoints.

ghost use Rattle.std.specs.Prelude.{◌≡◌, IfOk};
ghost use Rattle.std.specs.Option.{option_copied};
ghost use Rattle.vf_syntax.specs.declared.item.FixpointBody.TheVariants as bodies;
ghost use Rattle.vf_walk.specs.Walking.{Follows};
ghost use Rattle.vf_equations.specs.Fixpoints as fixpoints;
ghost use Rattle.vf_equations.specs.Fixpoints.{EquationsCome, FixpointComes, around_fixpoint, result_of};

use crate::cases::cases_given;
use crate::switching::switch_checked;
use crate::values::value_checked;
use std::alloc::Global;
use vf_base::{Memory, RuleFault, Sequence};
use vf_declared::declaration::GhostDeclaration;
use vf_declared::scope::Scope;
use vf_heads::declare_fixpoint;
use vf_sorting::Context;
use vf_sorting::kinds::int_sort;
use vf_sorts::{Sort, Unknowns};
use vf_syntax::ghost_expr::GhostExpr;
use vf_syntax::item::{FixpointBody, FixpointCase, GhostParameter};
use vf_syntax::sort::Sort as WrittenSort;
use vf_syntax::written::Name;

/// What stands around the body of the fixpoint with a number.
fn around_fixpoint(number: usize) -> Context
    ensures { result ≡ around_fixpoint number }
{
    Context {
        result: None,
        has_this: false,
        has_thread: false,
        own: Some(number),
    }
}

/// The sort of the result of what is declared.
fn result_in(alloc: Global, declaration: Option<&GhostDeclaration>) -> Result<Sort, Memory>
    ensures { IfOk result (λ t. t ≡ fixpoints.result_in (option_copied declaration.entry)) }
{
    match declaration {
        Some(GhostDeclaration::Fixpoint(fixpoint)) => fixpoint.result.copy(alloc),
        _ => Ok(int_sort(alloc)),
    }
}

/// The sort of the result of the fixpoint with a number.
fn result_of(alloc: Global, scope: &Scope, number: usize) -> Result<Sort, Memory>
    ensures { IfOk result (λ t. t ≡ result_of scope.now number) }
{
    result_in(alloc, scope.ghost_declaration(number))
}

/// The value of the fixpoint with a number, behind which as many locals as a count says are left.
#[tactic(auto, using(vf_predicates::proofs::Coming::memory, crate::proofs::Wholes::value_stops, crate::proofs::Wholes::value_comes))]
fn value_given(
    alloc: Global,
    scope: &mut Scope,
    count: usize,
    number: usize,
    value: &GhostExpr,
) -> Result<(), RuleFault>
    ensures { Follows (EquationsCome count number scope.old (bodies.Value value.now)) result scope.new }
{
    let around = around_fixpoint(number);
    let sort = result_of(alloc, scope, number)?;
    let mut unknowns = Unknowns::new(alloc);
    value_checked(alloc, scope, &around, &sort, &mut unknowns, value)?;
    scope.locals.leave(count);
    Ok(())
}

/// The same of the values in cases.
#[tactic(auto, using(vf_predicates::proofs::Coming::memory, crate::proofs::Wholes::switch_stops, crate::proofs::Wholes::cases_stop, crate::proofs::Wholes::cases_come))]
fn switch_given(
    alloc: Global,
    scope: &mut Scope,
    count: usize,
    number: usize,
    switched: &Name,
    cases: &Sequence<FixpointCase>,
) -> Result<(), RuleFault>
    ensures { Follows (EquationsCome count number scope.old (bodies.Switch switched.now cases.now)) result scope.new }
{
    let around = around_fixpoint(number);
    let sort = result_of(alloc, scope, number)?;
    let mut unknowns = Unknowns::new(alloc);
    let many = switch_checked(alloc, scope, &mut unknowns, switched, cases)?;
    cases_given(alloc, scope, &around, &sort, &mut unknowns, many, cases)?;
    scope.locals.leave(count);
    Ok(())
}

/// The body of the fixpoint with a number.
fn body_given(
    alloc: Global,
    scope: &mut Scope,
    count: usize,
    number: usize,
    body: &FixpointBody,
) -> Result<(), RuleFault>
    ensures { Follows (EquationsCome count number scope.old body.now) result scope.new }
{
    match body {
        FixpointBody::Value(value) => value_given(alloc, scope, count, number, value),
        FixpointBody::Switch(switched, cases) => {
            switch_given(alloc, scope, count, number, switched, cases)
        }
    }
}

/// Declares a fixpoint with its body, which may speak of the fixpoint itself. Whether its equations give it a value is
/// asked elsewhere: which constructors have a case, and what calls of itself pass.
///
/// # Errors
///
/// Refused at the first fault in the order of the text: its type parameters, the sort of its result, its name and its
/// parameters as those of any fixpoint; where it switches over a name that means nothing, by rule 5 at that name; where
/// that is no parameter of a datatype's sort, or a case is for no constructor of that with as many names as it has
/// arguments, by rule 6 at it; the name of a case by rule 7 where it is one of C, by rule 5 where a local has it; and
/// what stands in a value, which has the sort of the result, else it is refused by rule 6 at its first token.
#[tactic(auto, using(crate::proofs::Wholes::fixpoint_stops, crate::proofs::Wholes::fixpoint_comes))]
pub fn declare_fixpoint_body(
    alloc: Global,
    scope: &mut Scope,
    written: &WrittenSort,
    name: &Name,
    type_parameters: &Sequence<Name>,
    parameters: &Sequence<GhostParameter>,
    body: &FixpointBody,
) -> Result<(), RuleFault>
    ensures { Follows (FixpointComes written.now name.now type_parameters.now parameters.now body.now scope.old) result scope.new }
{
    let count = scope.locals.names.len();
    let number = scope.ghosts.len();
    declare_fixpoint(alloc, scope, written, name, type_parameters, parameters)?;
    body_given(alloc, scope, count, number, body)
}
