//! Patterns that may bind nothing.

ghost use Rattle.std.specs.Prelude.{◌≡◌, length};
ghost use Rattle.vf_sorts.specs.Unknowns.{AreBelow, IsBelow};
ghost use Rattle.vf_binding.specs.Answers.{AreHeads, IsHead, IsHeadList};

use std::alloc::Global;
use vf_base::{Place, Rule, RuleFault, Sequence};
use vf_declared::scope::Scope;
use vf_sorting::refusal::refused;
use vf_sorting::{Context, checked};
use vf_sorts::{Sort, SortList, Unknowns};
use vf_syntax::pattern::Pattern;

/// Whether a pattern that may bind nothing is an expression that passes for a sort.
#[tactic(auto, using(crate::proofs::Steps::head_passes, crate::proofs::Steps::head_fails, crate::proofs::Steps::head_named, crate::proofs::Steps::head_wild))]
fn head_checked(
    alloc: Global,
    scope: &Scope,
    context: &Context,
    unknowns: &mut Unknowns,
    wanted: &Sort,
    pattern: &Pattern,
) -> Result<(), RuleFault>
    requires { IsBelow (length unknowns.old) wanted.now }
    ensures { IsHead scope.now context.now unknowns.old wanted.now pattern.now result unknowns.new }
{
    match pattern {
        Pattern::Is(expr) => {
            checked(alloc, scope, context, unknowns, wanted, expr)?;
            Ok(())
        }
        Pattern::Binds(place, _) => Err(refused(Rule::Typing, *place)),
        Pattern::Wild(place) => Err(refused(Rule::Typing, *place)),
    }
}

/// The same of patterns, one for each of these sorts, from left to right.
#[tactic(auto, using(crate::proofs::Lists::sort_at))]
fn heads_checked(
    alloc: Global,
    scope: &Scope,
    context: &Context,
    unknowns: &mut Unknowns,
    sorts: &SortList,
    patterns: &Sequence<Pattern>,
) -> Result<(), RuleFault>
    requires below { AreBelow (length unknowns.old) sorts.now }
    requires count { length sorts.now ≡ length patterns.now }
    ensures { AreHeads scope.now context.now unknowns.old sorts.now patterns.now result unknowns.new }
{
    for at in 0..patterns.len() {
        let Some(sort) = sorts.get(at) else {
            return Ok(());
        };
        let Some(pattern) = patterns.get(at) else {
            return Ok(());
        };
        head_checked(alloc, scope, context, unknowns, sort, pattern)?;
    }
    Ok(())
}

/// The same of patterns in the parentheses behind what stands at a place, where another count of them is refused.
#[tactic(auto, using(crate::proofs::Steps::heads_other, crate::proofs::Steps::heads_fail, crate::proofs::Steps::heads_pass))]
pub fn head_list_checked(
    alloc: Global,
    scope: &Scope,
    context: &Context,
    unknowns: &mut Unknowns,
    sorts: &SortList,
    place: Place,
    patterns: &Sequence<Pattern>,
) -> Result<(), RuleFault>
    requires { AreBelow (length unknowns.old) sorts.now }
    ensures { IsHeadList scope.now context.now unknowns.old sorts.now place patterns.now result unknowns.new }
{
    if sorts.len() != patterns.len() {
        return Err(refused(Rule::Typing, place));
    }
    heads_checked(alloc, scope, context, unknowns, sorts, patterns)?;
    Ok(())
}
