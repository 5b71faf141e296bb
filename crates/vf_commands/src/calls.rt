//! Calls.

ghost use Rattle.std.specs.Prelude.{◌≡◌, ◌+◌, ◌<◌, ◌≤◌, ◌^◌, length};
ghost use Rattle.vf_sorts.specs.Unknowns.{AreBelow};
ghost use Rattle.vf_syntax.specs.GhostExprTree.{ghost_expr_list};
ghost use Rattle.vf_sorting.specs.Answers.{AreChecked};
ghost use Rattle.vf_commands.specs.Answers.{IsCalled};

use crate::callee::{Callee, callee_of};
use std::alloc::Global;
use vf_base::{Place, Rule, RuleFault, Text};
use vf_declared::scope::Scope;
use vf_sorting::fresh::fresh;
use vf_sorting::names::names_predicate;
use vf_sorting::refusal::refused;
use vf_sorting::{Context, checked};
use vf_sorts::Unknowns;
use vf_syntax::ghost_expr::GhostExprList;

/// Whether arguments pass for what a call takes, where unknown sorts from the first on stand for its type parameters.
#[tactic(auto, using(crate::proofs::Calling::passed_memory, crate::proofs::Calling::argument_below))]
fn arguments_passed(
    alloc: Global,
    scope: &Scope,
    context: &Context,
    unknowns: &mut Unknowns,
    first: usize,
    callee: &Callee,
    arguments: &GhostExprList,
) -> Result<(), RuleFault>
    requires callee { AreBelow first callee.now.arguments }
    requires first { first + callee.now.parameters ≤ length unknowns.old }
    requires fits { first + callee.now.parameters < 2 ^ 64 }
    requires count { length callee.now.arguments ≡ length arguments.now }
    ensures { AreChecked scope.now context.now unknowns.old first callee.now.parameters callee.now.arguments (ghost_expr_list arguments.now) result unknowns.new }
{
    for at in 0..arguments.len() {
        let Some(parameter) = callee.arguments.get(at) else {
            return Ok(());
        };
        let Some(argument) = arguments.get(at) else {
            return Ok(());
        };
        let wanted = unknowns.instance(first, callee.parameters, parameter)?;
        checked(alloc, scope, context, unknowns, &wanted, argument)?;
    }
    Ok(())
}

/// Whether the call of a name at a place may stand.
#[tactic(auto, using(crate::proofs::Calling::call_memory, crate::proofs::Calling::local_called, crate::proofs::Calling::callee_fails, crate::proofs::Calling::call_stray, crate::proofs::Calling::count_fails, crate::proofs::Calling::arguments_fail, crate::proofs::Calling::call_passes, vf_sorting::proofs::Wholes::scheme_first, crate::proofs::Calling::callee_below))]
pub fn call_checked(
    alloc: Global,
    scope: &Scope,
    context: &Context,
    unknowns: &mut Unknowns,
    place: Place,
    name: &Text,
    arguments: &GhostExprList,
) -> Result<(), RuleFault>
    ensures { IsCalled scope.now context.now unknowns.old place name.now (ghost_expr_list arguments.now) result unknowns.new }
{
    if names_predicate(alloc, scope, unknowns, name)? {
        return Err(refused(Rule::Typing, place));
    }
    let callee = callee_of(alloc, scope, context.own, place, name)?;
    if !unknowns.has_all(&callee.arguments) {
        return Err(refused(Rule::Typing, place));
    }
    if callee.arguments.len() != arguments.len() {
        return Err(refused(Rule::Typing, place));
    }
    let first = fresh(unknowns, callee.parameters)?;
    arguments_passed(alloc, scope, context, unknowns, first, &callee, arguments)?;
    Ok(())
}
