//! Sorts of expressions.

ghost use Rattle.std.specs.Prelude.{◌≡◌, ◌+◌, ◌<◌, ◌≤◌, ◌^◌, false, length};
ghost use Rattle.vf_sorts.specs.Unknowns.{IsBelow};
ghost use Rattle.vf_syntax.specs.GhostExprTree as tree;
ghost use Rattle.vf_syntax.specs.GhostExprTree.{ghost_expr_list, ghost_link_list};
ghost use Rattle.vf_sorting.specs.Answers.{AreChecked, AreLinked, IsChecked, IsLinked, IsMet, IsSorted};
ghost use Rattle.vf_sorting.specs.Kinds.{is_pointer, resolved};
ghost use Rattle.vf_sorting.specs.Operators.{goes_inside, place_of};
ghost use Rattle.vf_sorting.specs.Scopes.{IsSchemeBelow};

use crate::context::Context;
use crate::forms::{is_null, place_of};
use crate::fresh::{equate, fresh, has_scheme};
use crate::kinds::{
    bool_sort, either_any, int_sort, is_any, is_null_beside, is_pointer, pointer_sort, value_sort,
};
use crate::names::{application_scheme, names_predicate};
use crate::operand::Operand;
use crate::operators::{is_equality, moves, operand_sort, prefix_sort, result_sort};
use crate::refusal::refused;
use crate::scheme::Scheme;
use crate::words::{named, result_word, this_word, thread_word};
use std::alloc::Global;
use vf_base::{Place, Rule, RuleFault, Text};
use vf_declared::scope::Scope;
use vf_sorts::{Sort, Unknowns};
use vf_syntax::ghost_expr::{GhostExpr, GhostExprList, GhostExprNode, GhostLink, GhostLinkList};
use vf_syntax::operator::{Level, UnaryOperator};

/// The sort of an expression, or its first refusal. What comes to be known of unknown sorts is kept.
#[cycle(sorts)]
#[tactic(auto, using(crate::proofs::Steps::number_sorted, crate::proofs::Steps::true_sorted, crate::proofs::Steps::false_sorted))]
pub fn sorted(
    alloc: Global,
    scope: &Scope,
    context: &Context,
    unknowns: &mut Unknowns,
    expr: &GhostExpr,
) -> Result<Sort, RuleFault>
    ensures { IsSorted scope.now context.now unknowns.old expr.now result unknowns.new }
{
    let place = expr.place;
    match &expr.node {
        GhostExprNode::Number(_, _) => Ok(int_sort(alloc)),
        GhostExprNode::True => Ok(bool_sort(alloc)),
        GhostExprNode::False => Ok(bool_sort(alloc)),
        GhostExprNode::Result => result_word(alloc, scope, context, unknowns, place),
        GhostExprNode::This => this_word(alloc, scope, context, unknowns, place),
        GhostExprNode::CurrentThread => thread_word(alloc, scope, context, unknowns, place),
        GhostExprNode::Name(name) => named(alloc, scope, context, unknowns, place, name),
        GhostExprNode::Application(name, arguments) => {
            applied(alloc, scope, context, unknowns, place, name, arguments)
        }
        GhostExprNode::Parenthesized(inner) => {
            enclosed(alloc, scope, context, unknowns, place, inner)
        }
        GhostExprNode::Conditional(test, yes, no) => {
            chosen(alloc, scope, context, unknowns, place, test, yes, no)
        }
        GhostExprNode::Unary(operator, operand) => {
            prefixed(alloc, scope, context, unknowns, place, *operator, operand)
        }
        GhostExprNode::Chain(level, start, links) => {
            chained(alloc, scope, context, unknowns, place, *level, start, links)
        }
    }
}

/// Whether an expression passes for a wanted sort; refused at its first token where it does not.
#[cycle(sorts)]
#[tactic(auto, using(crate::proofs::Checks::checked_there))]
pub fn checked(
    alloc: Global,
    scope: &Scope,
    context: &Context,
    unknowns: &mut Unknowns,
    wanted: &Sort,
    expr: &GhostExpr,
) -> Result<(), RuleFault>
    requires wanted { IsBelow (length unknowns.old) wanted.now }
    ensures { IsChecked scope.now context.now unknowns.old wanted.now (place_of expr.now) expr.now result unknowns.new }
{
    let place = place_of(expr);
    checked_at(alloc, scope, context, unknowns, wanted, place, expr)
}

/// Whether an expression passes for a wanted sort; refused at a place where its sort is another one.
#[cycle(sorts)]
#[tactic(auto, using(crate::proofs::Steps::checked_memory, crate::proofs::Checks::inside_fails, crate::proofs::Checks::inside_passes, crate::proofs::Checks::null_passes, crate::proofs::Checks::number_whole, crate::proofs::Checks::choice_whole, crate::proofs::Shapes::goes_no_further, crate::proofs::Checks::choice_test_fails, crate::proofs::Checks::choice_first_fails, crate::proofs::Checks::choice_second_fails, crate::proofs::Checks::choice_passes, crate::proofs::Steps::checked_keeps, crate::proofs::Steps::bool_below))]
fn checked_at(
    alloc: Global,
    scope: &Scope,
    context: &Context,
    unknowns: &mut Unknowns,
    wanted: &Sort,
    place: Place,
    expr: &GhostExpr,
) -> Result<(), RuleFault>
    requires wanted { IsBelow (length unknowns.old) wanted.now }
    ensures { IsChecked scope.now context.now unknowns.old wanted.now place expr.now result unknowns.new }
{
    let resolved = unknowns.resolve(wanted)?;
    let is_pointer = is_pointer(&resolved);
    match &expr.node {
        GhostExprNode::Parenthesized(inner) => {
            checked_at(alloc, scope, context, unknowns, wanted, place, inner)?;
            Ok(())
        }
        GhostExprNode::Number(number, _) => {
            if is_null_beside(&resolved, *number == 0) {
                return Ok(());
            }
            compared(alloc, scope, context, unknowns, wanted, place, expr)
        }
        GhostExprNode::Conditional(test, yes, no) => {
            if !is_pointer {
                return compared(alloc, scope, context, unknowns, wanted, place, expr);
            }
            let truth = bool_sort(alloc);
            checked(alloc, scope, context, unknowns, &truth, test)?;
            checked(alloc, scope, context, unknowns, wanted, yes)?;
            checked(alloc, scope, context, unknowns, wanted, no)?;
            Ok(())
        }
        _ => compared(alloc, scope, context, unknowns, wanted, place, expr),
    }
}

/// Whether the sort of an expression is the wanted one, or every sort is wanted; refused at a place where it is not.
#[cycle(sorts)]
#[tactic(auto, using(crate::proofs::Steps::checked_memory, crate::proofs::Checks::sort_fails, crate::proofs::Checks::any_passes, crate::proofs::Checks::apart_fails, crate::proofs::Checks::wanted_passes, crate::proofs::Steps::sorted_below, crate::proofs::Steps::sorted_keeps))]
fn compared(
    alloc: Global,
    scope: &Scope,
    context: &Context,
    unknowns: &mut Unknowns,
    wanted: &Sort,
    place: Place,
    expr: &GhostExpr,
) -> Result<(), RuleFault>
    requires wanted { IsBelow (length unknowns.old) wanted.now }
    requires whole { goes_inside (is_pointer (resolved unknowns.old wanted.now)) expr.now ≡ false }
    ensures { IsChecked scope.now context.now unknowns.old wanted.now place expr.now result unknowns.new }
{
    let resolved = unknowns.resolve(wanted)?;
    let is_every = is_any(&resolved);
    let sort = sorted(alloc, scope, context, unknowns, expr)?;
    if is_every {
        return Ok(());
    }
    equate(unknowns, &sort, wanted, place)?;
    Ok(())
}

/// The common sort of a left operand and of an expression behind it.
#[cycle(sorts)]
#[tactic(auto, using(crate::proofs::Steps::met_memory, crate::proofs::Checks::met_null_second, crate::proofs::Checks::met_fails, crate::proofs::Checks::met_null_first, crate::proofs::Checks::met_any, crate::proofs::Checks::met_apart, crate::proofs::Checks::met_alike, crate::proofs::Steps::sorted_below, crate::proofs::Steps::sorted_keeps))]
fn met(
    alloc: Global,
    scope: &Scope,
    context: &Context,
    unknowns: &mut Unknowns,
    left: Operand,
    expr: &GhostExpr,
) -> Result<Sort, RuleFault>
    requires left { IsBelow (length unknowns.old) left.sort }
    ensures { IsMet scope.now context.now unknowns.old left.is_null left.sort expr.now result unknowns.new }
{
    let first = unknowns.resolve(&left.sort)?;
    if is_null_beside(&first, is_null(expr)) {
        return Ok(left.sort);
    }
    let right = sorted(alloc, scope, context, unknowns, expr)?;
    let second = unknowns.resolve(&right)?;
    if is_null_beside(&second, left.is_null) {
        return Ok(right);
    }
    let first = unknowns.resolve(&left.sort)?;
    if either_any(&first, &second) {
        return Ok(value_sort(alloc));
    }
    equate(unknowns, &right, &left.sort, place_of(expr))?;
    Ok(left.sort)
}

/// An expression in parentheses at a place.
#[cycle(sorts)]
#[tactic(auto, using(crate::proofs::Wholes::enclosed_fails, crate::proofs::Wholes::enclosed_sorted))]
fn enclosed(
    alloc: Global,
    scope: &Scope,
    context: &Context,
    unknowns: &mut Unknowns,
    place: Place,
    inner: &GhostExpr,
) -> Result<Sort, RuleFault>
    ensures { IsSorted scope.now context.now unknowns.old (tree.parenthesized place inner.now) result unknowns.new }
{
    let sort = sorted(alloc, scope, context, unknowns, inner)?;
    Ok(sort)
}

/// A choice at a place.
#[cycle(sorts)]
#[tactic(auto, using(crate::proofs::Wholes::test_fails, crate::proofs::Wholes::first_fails, crate::proofs::Wholes::second_fails, crate::proofs::Wholes::choice_sorted, crate::proofs::Steps::sorted_below, crate::proofs::Steps::bool_below))]
fn chosen(
    alloc: Global,
    scope: &Scope,
    context: &Context,
    unknowns: &mut Unknowns,
    place: Place,
    test: &GhostExpr,
    yes: &GhostExpr,
    no: &GhostExpr,
) -> Result<Sort, RuleFault>
    ensures { IsSorted scope.now context.now unknowns.old (tree.conditional place test.now yes.now no.now) result unknowns.new }
{
    let truth = bool_sort(alloc);
    checked(alloc, scope, context, unknowns, &truth, test)?;
    let sort = sorted(alloc, scope, context, unknowns, yes)?;
    let left = Operand {
        is_null: is_null(yes),
        place: place_of(yes),
        sort,
    };
    let sort = met(alloc, scope, context, unknowns, left, no)?;
    Ok(sort)
}

/// An operator at a place in front of its operand.
#[cycle(sorts)]
#[tactic(auto, using(crate::proofs::Wholes::prefixed_fails, crate::proofs::Wholes::prefixed_sorted, crate::proofs::Steps::prefix_below))]
fn prefixed(
    alloc: Global,
    scope: &Scope,
    context: &Context,
    unknowns: &mut Unknowns,
    place: Place,
    operator: UnaryOperator,
    operand: &GhostExpr,
) -> Result<Sort, RuleFault>
    ensures { IsSorted scope.now context.now unknowns.old (tree.unary place operator operand.now) result unknowns.new }
{
    let wanted = prefix_sort(alloc, operator);
    checked(alloc, scope, context, unknowns, &wanted, operand)?;
    Ok(wanted)
}

/// An operator and its operand behind a left operand.
#[cycle(sorts)]
#[tactic(auto, using(crate::proofs::Steps::linked_memory, crate::proofs::Checks::compared_fails, crate::proofs::Checks::compared_linked, crate::proofs::Checks::moved_fails, crate::proofs::Checks::moved_linked, crate::proofs::Checks::left_fails, crate::proofs::Checks::right_fails, crate::proofs::Checks::joined_linked, crate::proofs::Steps::int_below, crate::proofs::Steps::operand_below))]
fn linked(
    alloc: Global,
    scope: &Scope,
    context: &Context,
    unknowns: &mut Unknowns,
    left: Operand,
    link: &GhostLink,
) -> Result<Sort, RuleFault>
    requires left { IsBelow (length unknowns.old) left.sort }
    ensures { IsLinked scope.now context.now unknowns.old left.is_null left.place left.sort link.now result unknowns.new }
{
    if is_equality(link.operator) {
        let _common = met(alloc, scope, context, unknowns, left, &link.operand)?;
        return Ok(bool_sort(alloc));
    }
    let resolved = unknowns.resolve(&left.sort)?;
    if moves(link.operator, &resolved) {
        let distance = int_sort(alloc);
        checked(alloc, scope, context, unknowns, &distance, &link.operand)?;
        return Ok(pointer_sort(alloc));
    }
    let wanted = operand_sort(alloc, link.operator);
    equate(unknowns, &left.sort, &wanted, left.place)?;
    checked(alloc, scope, context, unknowns, &wanted, &link.operand)?;
    Ok(result_sort(alloc, link.operator))
}

/// Operators and their operands behind a left operand, from left to right.
#[cycle(sorts)]
#[tactic(auto, using(crate::proofs::Lists::link_smaller))]
fn all_linked(
    alloc: Global,
    scope: &Scope,
    context: &Context,
    unknowns: &mut Unknowns,
    start: Operand,
    links: &GhostLinkList,
) -> Result<Sort, RuleFault>
    requires start { IsBelow (length unknowns.old) start.sort }
    ensures { AreLinked scope.now context.now unknowns.old start.is_null start.place start.sort (ghost_link_list links.now) result unknowns.new }
{
    let place = start.place;
    let mut left = start;
    for at in 0..links.len() {
        let Some(link) = links.get(at) else {
            return Ok(left.sort);
        };
        let sort = linked(alloc, scope, context, unknowns, left, link)?;
        left = Operand {
            is_null: false,
            place,
            sort,
        };
    }
    Ok(left.sort)
}

/// Operands at a place that are joined by operators of one level.
#[cycle(sorts)]
#[tactic(auto, using(crate::proofs::Wholes::start_fails, crate::proofs::Wholes::chain_fails, crate::proofs::Wholes::chain_sorted, crate::proofs::Steps::sorted_below))]
fn chained(
    alloc: Global,
    scope: &Scope,
    context: &Context,
    unknowns: &mut Unknowns,
    place: Place,
    level: Level,
    start: &GhostExpr,
    links: &GhostLinkList,
) -> Result<Sort, RuleFault>
    ensures { IsSorted scope.now context.now unknowns.old (tree.chain place level start.now (ghost_link_list links.now)) result unknowns.new }
{
    let sort = sorted(alloc, scope, context, unknowns, start)?;
    let left = Operand {
        is_null: is_null(start),
        place: place_of(start),
        sort,
    };
    let sort = all_linked(alloc, scope, context, unknowns, left, links)?;
    Ok(sort)
}

/// Arguments for the parameters of a scheme, where unknown sorts from the first on stand for its type parameters.
#[cycle(sorts)]
#[tactic(auto, using(crate::proofs::Lists::expr_smaller, crate::proofs::Steps::passed_memory, crate::proofs::Wholes::argument_below))]
fn passed(
    alloc: Global,
    scope: &Scope,
    context: &Context,
    unknowns: &mut Unknowns,
    first: usize,
    scheme: &Scheme,
    arguments: &GhostExprList,
) -> Result<(), RuleFault>
    requires scheme { IsSchemeBelow first scheme.now }
    requires first { first + scheme.now.parameters ≤ length unknowns.old }
    requires fits { first + scheme.now.parameters < 2 ^ 64 }
    requires count { length scheme.now.arguments ≡ length arguments.now }
    ensures { AreChecked scope.now context.now unknowns.old first scheme.now.parameters scheme.now.arguments (ghost_expr_list arguments.now) result unknowns.new }
{
    for at in 0..arguments.len() {
        let Some(parameter) = scheme.arguments.get(at) else {
            return Ok(());
        };
        let Some(argument) = arguments.get(at) else {
            return Ok(());
        };
        let wanted = unknowns.instance(first, scheme.parameters, parameter)?;
        checked(alloc, scope, context, unknowns, &wanted, argument)?;
    }
    Ok(())
}

/// A name at a place in front of arguments.
#[cycle(sorts)]
#[tactic(auto, using(crate::proofs::Steps::sorted_memory, crate::proofs::Wholes::local_applied, crate::proofs::Wholes::scheme_fails, crate::proofs::Wholes::count_fails, crate::proofs::Wholes::stray_application, crate::proofs::Wholes::arguments_fail, crate::proofs::Wholes::applied_sorted, crate::proofs::Wholes::scheme_first, crate::proofs::Wholes::scheme_below))]
fn applied(
    alloc: Global,
    scope: &Scope,
    context: &Context,
    unknowns: &mut Unknowns,
    place: Place,
    name: &Text,
    arguments: &GhostExprList,
) -> Result<Sort, RuleFault>
    ensures { IsSorted scope.now context.now unknowns.old (tree.application place name.now (ghost_expr_list arguments.now)) result unknowns.new }
{
    if names_predicate(alloc, scope, unknowns, name)? {
        return Err(refused(Rule::Typing, place));
    }
    let scheme = application_scheme(alloc, scope, context.own, place, name)?;
    if !has_scheme(unknowns, &scheme) {
        return Err(refused(Rule::Typing, place));
    }
    if scheme.arguments.len() != arguments.len() {
        return Err(refused(Rule::Typing, place));
    }
    let first = fresh(unknowns, scheme.parameters)?;
    passed(alloc, scope, context, unknowns, first, &scheme, arguments)?;
    let sort = unknowns.instance(first, scheme.parameters, &scheme.result)?;
    Ok(sort)
}
