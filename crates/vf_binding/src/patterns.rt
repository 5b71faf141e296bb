//! Patterns.

ghost use Rattle.std.specs.Prelude.{◌≡◌, length};
ghost use Rattle.vf_sorts.specs.Unknowns.{AreBelow, IsBelow};
ghost use Rattle.vf_binding.specs.Answers.{AreBound, IsBound, IsListBound};

use crate::bound::{Bound, name_bound};
use std::alloc::Global;
use vf_base::{Place, Rule, RuleFault, Sequence};
use vf_declared::scope::Scope;
use vf_sorting::refusal::refused;
use vf_sorting::{Context, checked};
use vf_sorts::{Sort, SortList, Unknowns};
use vf_syntax::pattern::Pattern;

/// Binds what a pattern binds where values of a sort stand, or refuses it.
#[tactic(auto, using(crate::proofs::Steps::value_bound, crate::proofs::Steps::value_fails, crate::proofs::Steps::name_binds, crate::proofs::Steps::name_fails, crate::proofs::Steps::wild_bound))]
pub fn pattern_bound(
    alloc: Global,
    scope: &Scope,
    context: &Context,
    unknowns: &mut Unknowns,
    bound: &mut Bound,
    wanted: &Sort,
    pattern: &Pattern,
) -> Result<(), RuleFault>
    requires { IsBelow (length unknowns.old) wanted.now }
    ensures { IsBound scope.now context.now unknowns.old bound.old wanted.now pattern.now result unknowns.new bound.new }
{
    match pattern {
        Pattern::Is(expr) => {
            checked(alloc, scope, context, unknowns, wanted, expr)?;
            Ok(())
        }
        Pattern::Binds(_, name) => {
            name_bound(alloc, scope, bound, name, wanted)?;
            Ok(())
        }
        Pattern::Wild(_) => Ok(()),
    }
}

/// Binds what patterns bind where values of these sorts stand, one for each, or refuses the first that has a fault.
#[tactic(auto, using(crate::proofs::Lists::sort_at))]
fn patterns_bound(
    alloc: Global,
    scope: &Scope,
    context: &Context,
    unknowns: &mut Unknowns,
    bound: &mut Bound,
    sorts: &SortList,
    patterns: &Sequence<Pattern>,
) -> Result<(), RuleFault>
    requires below { AreBelow (length unknowns.old) sorts.now }
    requires count { length sorts.now ≡ length patterns.now }
    ensures { AreBound scope.now context.now unknowns.old bound.old sorts.now patterns.now result unknowns.new bound.new }
{
    for at in 0..patterns.len() {
        let Some(sort) = sorts.get(at) else {
            return Ok(());
        };
        let Some(pattern) = patterns.get(at) else {
            return Ok(());
        };
        pattern_bound(alloc, scope, context, unknowns, bound, sort, pattern)?;
    }
    Ok(())
}

/// The same of patterns in the parentheses behind what stands at a place, where another count of them is refused.
#[tactic(auto, using(crate::proofs::Steps::list_other, crate::proofs::Steps::list_fails, crate::proofs::Steps::list_bound))]
pub fn list_bound(
    alloc: Global,
    scope: &Scope,
    context: &Context,
    unknowns: &mut Unknowns,
    bound: &mut Bound,
    sorts: &SortList,
    place: Place,
    patterns: &Sequence<Pattern>,
) -> Result<(), RuleFault>
    requires { AreBelow (length unknowns.old) sorts.now }
    ensures { IsListBound scope.now context.now unknowns.old bound.old sorts.now place patterns.now result unknowns.new bound.new }
{
    if sorts.len() != patterns.len() {
        return Err(refused(Rule::Typing, place));
    }
    patterns_bound(alloc, scope, context, unknowns, bound, sorts, patterns)?;
    Ok(())
}
