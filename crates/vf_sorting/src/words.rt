//! Words and names.

ghost use Rattle.vf_syntax.specs.GhostExprTree as tree;
ghost use Rattle.vf_sorting.specs.Answers.{IsSorted};

use crate::context::Context;
use crate::fresh::{fresh, has_scheme};
use crate::kinds::{int_sort, pointer_sort};
use crate::names::name_scheme;
use crate::refusal::refused;
use std::alloc::Global;
use vf_base::{Place, Rule, RuleFault, Text};
use vf_declared::scope::Scope;
use vf_sorts::{Sort, Unknowns};

/// `result` at a place.

#[tactic(auto, using(crate::proofs::Steps::result_sorted, crate::proofs::Steps::no_result, crate::proofs::Steps::stray_result, crate::proofs::Steps::sorted_memory))]
pub fn result_word(
    alloc: Global,
    scope: &Scope,
    context: &Context,
    unknowns: &mut Unknowns,
    place: Place,
) -> Result<Sort, RuleFault>
    ensures { IsSorted scope.now context.now unknowns.old (tree.result place) result unknowns.new }
{
    match &context.result {
        Some(sort) => {
            if !unknowns.has(sort) {
                return Err(refused(Rule::Typing, place));
            }
            let sort = sort.copy(alloc)?;
            Ok(sort)
        }
        None => Err(refused(Rule::Name, place)),
    }
}

/// `this` at a place.

#[tactic(auto, using(crate::proofs::Steps::this_sorted, crate::proofs::Steps::no_this))]
pub fn this_word(
    alloc: Global,
    scope: &Scope,
    context: &Context,
    unknowns: &mut Unknowns,
    place: Place,
) -> Result<Sort, RuleFault>
    ensures { IsSorted scope.now context.now unknowns.old (tree.this_ place) result unknowns.new }
{
    if !context.has_this {
        return Err(refused(Rule::Name, place));
    }
    Ok(pointer_sort(alloc))
}

/// `currentThread` at a place.

#[tactic(auto, using(crate::proofs::Steps::thread_sorted, crate::proofs::Steps::no_thread))]
pub fn thread_word(
    alloc: Global,
    scope: &Scope,
    context: &Context,
    unknowns: &mut Unknowns,
    place: Place,
) -> Result<Sort, RuleFault>
    ensures { IsSorted scope.now context.now unknowns.old (tree.current_thread place) result unknowns.new }
{
    if !context.has_thread {
        return Err(refused(Rule::Name, place));
    }
    Ok(int_sort(alloc))
}

/// A name at a place.
#[tactic(auto, using(crate::proofs::Steps::name_refused, crate::proofs::Steps::stray_name, crate::proofs::Steps::name_sorted, crate::proofs::Steps::sorted_memory))]
pub fn named(
    alloc: Global,
    scope: &Scope,
    context: &Context,
    unknowns: &mut Unknowns,
    place: Place,
    name: &Text,
) -> Result<Sort, RuleFault>
    ensures { IsSorted scope.now context.now unknowns.old (tree.name_ place name.now) result unknowns.new }
{
    let scheme = name_scheme(alloc, scope, place, name)?;
    if !has_scheme(unknowns, &scheme) {
        return Err(refused(Rule::Typing, place));
    }
    let first = fresh(unknowns, scheme.parameters)?;
    let sort = unknowns.instance(first, scheme.parameters, &scheme.result)?;
    Ok(sort)
}
