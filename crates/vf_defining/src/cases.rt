//! The cases of a fixpoint.

ghost use Rattle.vf_equations.specs.Answers.{AreCases, IsCase};

use crate::values::value_checked;
use std::alloc::Global;
use vf_asserting::cases::{case_arguments, case_bound, instances};
use vf_base::{RuleFault, Sequence};
use vf_binding::bound::declare_names;
use vf_declared::scope::Scope;
use vf_sorting::Context;
use vf_sorts::{Sort, Unknowns};
use vf_syntax::item::FixpointCase;

/// A case whose value has a sort, where unknown sorts from 0 on stand for so many type parameters. Its names are gone
/// behind it.
#[tactic(auto, using(vf_equations::proofs::Giving::case_memory, vf_equations::proofs::Giving::names_refused, vf_equations::proofs::Giving::value_refused, vf_equations::proofs::Giving::case_gives))]
fn case_given(
    alloc: Global,
    scope: &mut Scope,
    context: &Context,
    sort: &Sort,
    unknowns: &mut Unknowns,
    count: usize,
    case: &FixpointCase,
) -> Result<(), RuleFault>
    ensures { IsCase context.now sort.now count scope.old unknowns.old case.now result scope.new unknowns.new }
{
    let before = scope.locals.names.len();
    let arguments = case_arguments(alloc, scope, &case.pattern)?;
    let sorts = instances(alloc, unknowns, 0, count, &arguments)?;
    let place = case.pattern.constructor.place;
    let named = case_bound(alloc, scope, &case.pattern.names, &sorts, place)?;
    declare_names(alloc, scope, &named)?;
    value_checked(alloc, scope, context, sort, unknowns, &case.value)?;
    scope.locals.leave(before);
    Ok(())
}

/// Cases, from the first to the last.
pub(crate) fn cases_given(
    alloc: Global,
    scope: &mut Scope,
    context: &Context,
    sort: &Sort,
    unknowns: &mut Unknowns,
    count: usize,
    cases: &Sequence<FixpointCase>,
) -> Result<(), RuleFault>
    ensures { AreCases context.now sort.now count scope.old unknowns.old cases.now result scope.new unknowns.new }
{
    for at in 0..cases.len() {
        let Some(case) = cases.get(at) else {
            return Ok(());
        };
        case_given(alloc, scope, context, sort, unknowns, count, case)?;
    }
    Ok(())
}
