//! Assertions.

ghost use Rattle.std.specs.Prelude.{◌≡◌, ◌+◌, ◌<◌, ◌^◌, length};
ghost use Rattle.vf_syntax.specs.AssertionTree as tree;
ghost use Rattle.vf_syntax.specs.AssertionTree.{assertion_case_list, part_list};
ghost use Rattle.vf_asserting.specs.Answers.{AreCases, IsAssertion, IsBranch, IsCase, IsPart};

use crate::cases::{case_arguments, case_bound, instances};
use crate::switches::switch_checked;
use std::alloc::Global;
use vf_base::{Place, RuleFault, Sequence};
use vf_binding::bound::{declare_names, no_names};
use vf_binding::{cell_bound, chunk_bound};
use vf_declared::scope::Scope;
use vf_sorting::kinds::bool_sort;
use vf_sorting::{Context, checked};
use vf_sorts::Unknowns;
use vf_syntax::assertion::{Assertion, AssertionCase, AssertionCaseList, Part, PartNode};
use vf_syntax::ghost_expr::GhostExpr;
use vf_syntax::pattern::{CasePattern, Pattern, Share};
use vf_syntax::written::Name;

/// What a chunk at a place declares, or its refusal.
#[tactic(auto, using(crate::proofs::Wholes::part_memory, crate::proofs::Wholes::chunk_fails, crate::proofs::Wholes::chunk_gives))]
fn chunk_given(
    alloc: Global,
    scope: &mut Scope,
    context: &Context,
    unknowns: &mut Unknowns,
    place: Place,
    share: &Option<Share>,
    name: &Name,
    first: &Sequence<Pattern>,
    second: &Option<Sequence<Pattern>>,
) -> Result<(), RuleFault>
    ensures { IsPart context.now scope.old unknowns.old (tree.chunk place share.now name.now first.now second.now) result scope.new unknowns.new }
{
    let mut bound = no_names(alloc);
    chunk_bound(
        alloc, scope, context, unknowns, &mut bound, share, name, first, second,
    )?;
    declare_names(alloc, scope, &bound)?;
    Ok(())
}

/// What a cell at a place declares, or its refusal.
#[tactic(auto, using(crate::proofs::Wholes::part_memory, crate::proofs::Wholes::cell_fails, crate::proofs::Wholes::cell_gives))]
fn cell_given(
    alloc: Global,
    scope: &mut Scope,
    context: &Context,
    unknowns: &mut Unknowns,
    place: Place,
    share: &Option<Share>,
    pointer: &GhostExpr,
    field: &Name,
    content: &Pattern,
) -> Result<(), RuleFault>
    ensures { IsPart context.now scope.old unknowns.old (tree.cell place share.now pointer.now field.now content.now) result scope.new unknowns.new }
{
    let mut bound = no_names(alloc);
    cell_bound(
        alloc, scope, context, unknowns, &mut bound, share, pointer, field, content,
    )?;
    declare_names(alloc, scope, &bound)?;
    Ok(())
}

/// A truth value at a place, or its refusal.
#[tactic(auto, using(crate::proofs::Wholes::pure_fails, crate::proofs::Wholes::pure_gives, vf_sorting::proofs::Steps::bool_below))]
fn pure_given(
    alloc: Global,
    scope: &Scope,
    context: &Context,
    unknowns: &mut Unknowns,
    place: Place,
    expr: &GhostExpr,
) -> Result<(), RuleFault>
    ensures { IsPart context.now scope.now unknowns.old (tree.pure place expr.now) result scope.now unknowns.new }
{
    let truth = bool_sort(alloc);
    checked(alloc, scope, context, unknowns, &truth, expr)?;
    Ok(())
}

/// What a part declares, or its refusal. What comes to be known of unknown sorts is kept.
#[cycle(assertion)]
#[tactic(auto, using(crate::proofs::Wholes::empty_gives))]
pub fn part_given(
    alloc: Global,
    scope: &mut Scope,
    context: &Context,
    unknowns: &mut Unknowns,
    part: &Part,
) -> Result<(), RuleFault>
    ensures { IsPart context.now scope.old unknowns.old part.now result scope.new unknowns.new }
{
    let place = part.place;
    match &part.node {
        PartNode::Conditional(test, yes, no) => {
            chosen(alloc, scope, context, unknowns, place, test, yes, no)
        }
        PartNode::Switch(switched, cases) => {
            switch_given(alloc, scope, context, unknowns, place, switched, cases)
        }
        PartNode::Cell(share, pointer, field, content) => cell_given(
            alloc, scope, context, unknowns, place, share, pointer, field, content,
        ),
        PartNode::Chunk(share, name, first, second) => chunk_given(
            alloc, scope, context, unknowns, place, share, name, first, second,
        ),
        PartNode::Empty => Ok(()),
        PartNode::Pure(expr) => pure_given(alloc, scope, context, unknowns, place, expr),
        PartNode::Group(inner) => grouped(alloc, scope, context, unknowns, place, inner),
    }
}

/// An assertion in parentheses at a place.
#[cycle(assertion)]
#[tactic(auto, using(crate::proofs::Wholes::group_fails, crate::proofs::Wholes::group_gives))]
fn grouped(
    alloc: Global,
    scope: &mut Scope,
    context: &Context,
    unknowns: &mut Unknowns,
    place: Place,
    inner: &Assertion,
) -> Result<(), RuleFault>
    ensures { IsPart context.now scope.old unknowns.old (tree.group place (part_list inner.now)) result scope.new unknowns.new }
{
    assertion_given(alloc, scope, context, unknowns, inner)?;
    Ok(())
}

/// A conditional at a place.
#[cycle(assertion)]
#[tactic(auto, using(crate::proofs::Wholes::test_fails, crate::proofs::Wholes::first_fails, crate::proofs::Wholes::second_fails, crate::proofs::Wholes::choice_gives, vf_sorting::proofs::Steps::bool_below))]
fn chosen(
    alloc: Global,
    scope: &mut Scope,
    context: &Context,
    unknowns: &mut Unknowns,
    place: Place,
    test: &GhostExpr,
    yes: &Assertion,
    no: &Assertion,
) -> Result<(), RuleFault>
    ensures { IsPart context.now scope.old unknowns.old (tree.conditional place test.now (part_list yes.now) (part_list no.now)) result scope.new unknowns.new }
{
    let truth = bool_sort(alloc);
    checked(alloc, scope, context, unknowns, &truth, test)?;
    branch_given(alloc, scope, context, unknowns, yes)?;
    branch_given(alloc, scope, context, unknowns, no)?;
    Ok(())
}

/// The assertion of a branch: what it declares is gone behind it.
#[cycle(assertion)]
#[tactic(auto, using(crate::proofs::Wholes::branch_fails, crate::proofs::Wholes::branch_gives))]
fn branch_given(
    alloc: Global,
    scope: &mut Scope,
    context: &Context,
    unknowns: &mut Unknowns,
    assertion: &Assertion,
) -> Result<(), RuleFault>
    ensures { IsBranch context.now scope.old unknowns.old (part_list assertion.now) result scope.new unknowns.new }
{
    let many = scope.locals.names.len();
    assertion_given(alloc, scope, context, unknowns, assertion)?;
    scope.locals.leave(many);
    Ok(())
}

/// A `switch` at a place.
#[cycle(assertion)]
#[tactic(auto, using(crate::proofs::Wholes::switch_refused, crate::proofs::Wholes::cases_refused, crate::proofs::Wholes::switch_gives, crate::proofs::Wholes::switch_fits))]
fn switch_given(
    alloc: Global,
    scope: &mut Scope,
    context: &Context,
    unknowns: &mut Unknowns,
    place: Place,
    switched: &GhostExpr,
    cases: &AssertionCaseList,
) -> Result<(), RuleFault>
    ensures { IsPart context.now scope.old unknowns.old (tree.switch_ place switched.now (assertion_case_list cases.now)) result scope.new unknowns.new }
{
    let over = switch_checked(alloc, scope, context, unknowns, switched, cases)?;
    cases_given(
        alloc, scope, context, unknowns, over.first, over.count, cases,
    )?;
    Ok(())
}

/// A case at a place, where unknown sorts from the first on stand for so many type parameters.
#[cycle(assertion)]
#[tactic(auto, using(crate::proofs::Wholes::case_memory, crate::proofs::Wholes::names_refused, crate::proofs::Wholes::body_refused, crate::proofs::Wholes::case_gives))]
fn body_given(
    alloc: Global,
    scope: &mut Scope,
    context: &Context,
    unknowns: &mut Unknowns,
    first: usize,
    count: usize,
    place: Place,
    pattern: &CasePattern,
    body: &Assertion,
) -> Result<(), RuleFault>
    requires { first + count < 2 ^ 64 }
    ensures { IsCase context.now scope.old first count unknowns.old (tree.assertion_case place pattern.now (part_list body.now)) result scope.new unknowns.new }
{
    let many = scope.locals.names.len();
    let arguments = case_arguments(alloc, scope, pattern)?;
    let sorts = instances(alloc, unknowns, first, count, &arguments)?;
    let named = case_bound(
        alloc,
        scope,
        &pattern.names,
        &sorts,
        pattern.constructor.place,
    )?;
    declare_names(alloc, scope, &named)?;
    assertion_given(alloc, scope, context, unknowns, body)?;
    scope.locals.leave(many);
    Ok(())
}

/// The same of a case.
#[cycle(assertion)]
fn case_given(
    alloc: Global,
    scope: &mut Scope,
    context: &Context,
    unknowns: &mut Unknowns,
    first: usize,
    count: usize,
    case: &AssertionCase,
) -> Result<(), RuleFault>
    requires { first + count < 2 ^ 64 }
    ensures { IsCase context.now scope.old first count unknowns.old case.now result scope.new unknowns.new }
{
    body_given(
        alloc,
        scope,
        context,
        unknowns,
        first,
        count,
        case.place,
        &case.pattern,
        &case.body,
    )
}

/// Cases, from the first to the last.
#[cycle(assertion)]
#[tactic(auto, using(crate::proofs::Lists::case_smaller))]
fn cases_given(
    alloc: Global,
    scope: &mut Scope,
    context: &Context,
    unknowns: &mut Unknowns,
    first: usize,
    count: usize,
    cases: &AssertionCaseList,
) -> Result<(), RuleFault>
    requires { first + count < 2 ^ 64 }
    ensures { AreCases context.now scope.old first count unknowns.old (assertion_case_list cases.now) result scope.new unknowns.new }
{
    for at in 0..cases.len() {
        let Some(case) = cases.get(at) else {
            return Ok(());
        };
        case_given(alloc, scope, context, unknowns, first, count, case)?;
    }
    Ok(())
}

/// What an assertion declares, or its first refusal. What comes to be known of unknown sorts is kept.
#[cycle(assertion)]
#[tactic(auto, using(crate::proofs::Lists::part_smaller))]
pub fn assertion_given(
    alloc: Global,
    scope: &mut Scope,
    context: &Context,
    unknowns: &mut Unknowns,
    assertion: &Assertion,
) -> Result<(), RuleFault>
    ensures { IsAssertion context.now scope.old unknowns.old (part_list assertion.now) result scope.new unknowns.new }
{
    for at in 0..assertion.len() {
        let Some(part) = assertion.get(at) else {
            return Ok(());
        };
        part_given(alloc, scope, context, unknowns, part)?;
    }
    Ok(())
}
