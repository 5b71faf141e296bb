//! Expressions.

ghost use Rattle.std.specs.Prelude.{◌≡◌, drop};
ghost use Rattle.std.specs.Option.{option_copied};
ghost use Rattle.vf_syntax.specs.ExprTree.{expr_list, link_list, postfix_list};
ghost use Rattle.vf_syntax.specs.ExprTree as syntax;
ghost use Rattle.vf_typing.specs.Parts.{called, free_place, parameters_of};
ghost use Rattle.vf_declared.specs.declared.ctype.CType.TheVariants as types;
ghost use Rattle.vf_steps.specs.Shown.{action_of, value_of, values_of};
ghost use Rattle.vf_steps.specs.Tree as steps;
ghost use Rattle.vf_lower.specs.Lowering.{◌⨾◌};
ghost use Rattle.vf_lower.specs.Operands as operands;
ghost use Rattle.vf_lower.specs.Operands.{passed, tested, truth_into, valued};
ghost use Rattle.vf_lower.specs.Expressions as lowering;
ghost use Rattle.vf_lower.specs.Shown.{left_of, outcome_of, setting_of, test_of};
ghost use Rattle.vf_lower.specs.Did.{Does};

use crate::call::{called, called_with, free_name, free_step, link_type, only_argument, part_type};
use crate::convert::{adapted, as_truth};
use crate::draft::Draft;
use crate::operand::{
    Access, Left, Outcome, as_test, as_value, computed, field, left_passed, left_test, left_value,
    offset, set_local,
};
use crate::operator::{compared_type, comparison_of, is_int_pointer, is_sum, result_type};
use crate::setting::{Setting, find_kind, integer_in, named, place_of, tag_number};
use crate::test::Test;
use vf_base::{IntType, Memory, Place, Sequence};
use vf_ctypes::promote;
use vf_declared::ctype::CType;
use vf_declared::declaration::Signature;
use vf_steps::Value;
use vf_syntax::expr::{
    Expr, ExprList, ExprNode, Link, LinkList, Postfix, PostfixList, PostfixNode,
};
use vf_syntax::operator::{BinaryOperator, UnaryOperator};

/// An expression as a value.
#[cycle(expr)]
pub fn valued(setting: &Setting<'_>, draft: &mut Draft<'_>, expr: &Expr) -> Result<Value, Memory>
    ensures { Does value_of (lowering.value (setting_of setting.now) expr.now) draft.old draft.new result }
{
    let outcome = lowered(setting, draft, expr)?;
    as_value(
        setting,
        draft,
        find_kind(setting, expr).ctype,
        place_of(expr),
        outcome,
    )
}

/// An expression as a test.
#[cycle(expr)]
pub fn tested(setting: &Setting<'_>, draft: &mut Draft<'_>, expr: &Expr) -> Result<Test, Memory>
    ensures { Does test_of (lowering.condition (setting_of setting.now) expr.now) draft.old draft.new result }
{
    let outcome = lowered(setting, draft, expr)?;
    as_test(
        setting,
        draft,
        find_kind(setting, expr).ctype,
        place_of(expr),
        outcome,
    )
}

/// An expression as a value that passes for one of a type.
#[cycle(expr)]
pub fn passed(
    setting: &Setting<'_>,
    draft: &mut Draft<'_>,
    ctype: CType,
    expr: &Expr,
) -> Result<Value, Memory>
    ensures { Does value_of (lowering.value_as (setting_of setting.now) ctype expr.now) draft.old draft.new result }
{
    let value = valued(setting, draft, expr)?;
    adapted(
        setting,
        draft,
        ctype,
        find_kind(setting, expr),
        value,
        place_of(expr),
    )
}

/// Puts an expression as a truth value into a local.
#[cycle(expr)]
fn truth_into(
    setting: &Setting<'_>,
    draft: &mut Draft<'_>,
    local: usize,
    expr: &Expr,
) -> Result<(), Memory>
    ensures { Does (λ u. tt) (truth_into (setting_of setting.now) local expr.now (lowering.outcome (setting_of setting.now) expr.now)) draft.old draft.new result }
{
    let value = valued(setting, draft, expr)?;
    let truth = as_truth(
        setting,
        draft,
        find_kind(setting, expr).ctype,
        value,
        place_of(expr),
    )?;
    set_local(setting, draft, local, truth)
}

/// Puts an expression as a value that passes for one of a type into a local.
#[cycle(expr)]
fn passed_into(
    setting: &Setting<'_>,
    draft: &mut Draft<'_>,
    local: usize,
    ctype: CType,
    expr: &Expr,
) -> Result<(), Memory>
    ensures { Does (λ u. tt) (operands.value_into (setting_of setting.now) local (lowering.value_as (setting_of setting.now) ctype expr.now)) draft.old draft.new result }
{
    let value = passed(setting, draft, ctype, expr)?;
    set_local(setting, draft, local, value)
}

/// An operand with the other sign, at the minus.
#[cycle(expr)]
fn negative(
    setting: &Setting<'_>,
    draft: &mut Draft<'_>,
    place: Place,
    operand: &Expr,
) -> Result<Outcome, Memory>
    ensures { Does outcome_of (lowering.negative (setting_of setting.now) place operand.now (lowering.outcome (setting_of setting.now) operand.now)) draft.old draft.new result }
{
    let of = promote(integer_in(find_kind(setting, operand).ctype));
    let value = passed(setting, draft, CType::Integer(of), operand)?;
    Ok(Outcome::Is(Value::Negate {
        of,
        value: Box::new(setting.alloc, value)?,
        place,
    }))
}

/// An operator at a place in front of its operand.
#[cycle(expr)]
fn prefixed(
    setting: &Setting<'_>,
    draft: &mut Draft<'_>,
    place: Place,
    operator: UnaryOperator,
    operand: &Expr,
) -> Result<Outcome, Memory>
    ensures { Does outcome_of (lowering.prefixed (setting_of setting.now) place operator operand.now (lowering.outcome (setting_of setting.now) operand.now)) draft.old draft.new result }
{
    match operator {
        UnaryOperator::Minus => negative(setting, draft, place, operand),
        UnaryOperator::Not => {
            let test = tested(setting, draft, operand)?;
            Ok(Outcome::Holds(test.opposite()))
        }
    }
}

/// Two operands of a common type, and an operator at a place between them.
#[cycle(expr)]
fn arithmetic(
    setting: &Setting<'_>,
    draft: &mut Draft<'_>,
    place: Place,
    left: Left,
    at: Place,
    operator: BinaryOperator,
    operand: &Expr,
) -> Result<Outcome, Memory>
    ensures { Does outcome_of (operands.arithmetic (setting_of setting.now) place (left_of left) at operator operand.now (lowering.outcome (setting_of setting.now) operand.now)) draft.old draft.new result }
{
    let ctype = result_type(operator, left.kind.ctype, find_kind(setting, operand).ctype);
    let first = left_passed(setting, draft, place, ctype, left)?;
    let second = passed(setting, draft, ctype, operand)?;
    computed(setting, operator, ctype, first, second, at)
}

/// A pointer sum, at the `+`.
#[cycle(expr)]
fn pointer_sum(
    setting: &Setting<'_>,
    draft: &mut Draft<'_>,
    place: Place,
    left: Left,
    at: Place,
    operand: &Expr,
) -> Result<Outcome, Memory>
    ensures { Does outcome_of (operands.pointer_sum (setting_of setting.now) place (left_of left) at operand.now (lowering.outcome (setting_of setting.now) operand.now)) draft.old draft.new result }
{
    let pointer = left_value(setting, draft, place, left)?;
    let by = valued(setting, draft, operand)?;
    offset(setting, draft, pointer, by, at, place)
}

/// A sum and its like.
#[cycle(expr)]
fn sum(
    setting: &Setting<'_>,
    draft: &mut Draft<'_>,
    place: Place,
    left: Left,
    at: Place,
    operator: BinaryOperator,
    operand: &Expr,
) -> Result<Outcome, Memory>
    ensures { Does outcome_of (operands.sum (setting_of setting.now) place (left_of left) at operator operand.now (lowering.outcome (setting_of setting.now) operand.now)) draft.old draft.new result }
{
    if is_int_pointer(left.kind.ctype) {
        pointer_sum(setting, draft, place, left, at, operand)
    } else {
        arithmetic(setting, draft, place, left, at, operator, operand)
    }
}

/// A comparison.
#[cycle(expr)]
fn compared(
    setting: &Setting<'_>,
    draft: &mut Draft<'_>,
    place: Place,
    left: Left,
    operator: BinaryOperator,
    operand: &Expr,
) -> Result<Outcome, Memory>
    ensures { Does outcome_of (operands.compared (setting_of setting.now) place (left_of left) operator operand.now (lowering.outcome (setting_of setting.now) operand.now)) draft.old draft.new result }
{
    let one = left.kind.ctype;
    let other = find_kind(setting, operand).ctype;
    let first = left_passed(setting, draft, place, compared_type(one, other), left)?;
    let second = passed(setting, draft, compared_type(other, one), operand)?;
    Ok(Outcome::Holds(Test::new(comparison_of(operator), first, second)))
}

/// `&&`
#[cycle(expr)]
fn both(
    setting: &Setting<'_>,
    draft: &mut Draft<'_>,
    place: Place,
    left: Left,
    operand: &Expr,
) -> Result<Outcome, Memory>
    ensures { Does outcome_of (operands.both (setting_of setting.now) place (left_of left) operand.now (lowering.outcome (setting_of setting.now) operand.now)) draft.old draft.new result }
{
    let test = left_test(setting, draft, place, left)?;
    let local = draft.take(CType::Integer(IntType::Bool))?;
    let mut first = draft.aside(setting.alloc);
    truth_into(setting, &mut first, local, operand)?;
    let mut second = first.aside(setting.alloc);
    set_local(setting, &mut second, local, Value::Truth(false))?;
    draft.join(setting.statement, test, first.nodes, second)?;
    Ok(Outcome::Is(Value::Read { local, place }))
}

/// `||`
#[cycle(expr)]
fn one_of(
    setting: &Setting<'_>,
    draft: &mut Draft<'_>,
    place: Place,
    left: Left,
    operand: &Expr,
) -> Result<Outcome, Memory>
    ensures { Does outcome_of (operands.one_of (setting_of setting.now) place (left_of left) operand.now (lowering.outcome (setting_of setting.now) operand.now)) draft.old draft.new result }
{
    let test = left_test(setting, draft, place, left)?;
    let local = draft.take(CType::Integer(IntType::Bool))?;
    let mut first = draft.aside(setting.alloc);
    set_local(setting, &mut first, local, Value::Truth(true))?;
    let mut second = first.aside(setting.alloc);
    truth_into(setting, &mut second, local, operand)?;
    draft.join(setting.statement, test, first.nodes, second)?;
    Ok(Outcome::Is(Value::Read { local, place }))
}

/// A left operand at a place, an operator at another, and the right operand.
#[cycle(expr)]
pub fn joined(
    setting: &Setting<'_>,
    draft: &mut Draft<'_>,
    place: Place,
    left: Left,
    at: Place,
    operator: BinaryOperator,
    operand: &Expr,
) -> Result<Outcome, Memory>
    ensures { Does outcome_of (operands.joined (setting_of setting.now) place (left_of left) at operator operand.now (lowering.outcome (setting_of setting.now) operand.now)) draft.old draft.new result }
{
    match operator {
        BinaryOperator::And => both(setting, draft, place, left, operand),
        BinaryOperator::Or => one_of(setting, draft, place, left, operand),
        _ => {
            if is_sum(operator) {
                sum(setting, draft, place, left, at, operator, operand)
            } else {
                compared(setting, draft, place, left, operator, operand)
            }
        }
    }
}

/// An operator and its operand behind a left operand at a place.
#[cycle(expr)]
fn linked(
    setting: &Setting<'_>,
    draft: &mut Draft<'_>,
    place: Place,
    left: Left,
    link: &Link,
) -> Result<Outcome, Memory>
    ensures { Does outcome_of (lowering.link (setting_of setting.now) place (left_of left) link.now) draft.old draft.new result }
{
    joined(
        setting,
        draft,
        place,
        left,
        link.place,
        link.operator,
        &link.operand,
    )
}

/// A choice at a place, of a type, behind its test.
#[cycle(expr)]
fn choice(
    setting: &Setting<'_>,
    draft: &mut Draft<'_>,
    place: Place,
    ctype: CType,
    test: Test,
    so: &Expr,
    otherwise: &Expr,
) -> Result<Outcome, Memory>
    ensures { Does outcome_of (operands.choice (setting_of setting.now) place ctype (test_of test) (lowering.value_as (setting_of setting.now) ctype so.now) (lowering.value_as (setting_of setting.now) ctype otherwise.now)) draft.old draft.new result }
{
    let local = draft.take(ctype)?;
    let mut first = draft.aside(setting.alloc);
    passed_into(setting, &mut first, local, ctype, so)?;
    let mut second = first.aside(setting.alloc);
    passed_into(setting, &mut second, local, ctype, otherwise)?;
    draft.join(setting.statement, test, first.nodes, second)?;
    Ok(Outcome::Is(Value::Read { local, place }))
}

/// Operators and their operands behind a left operand, from left to right.
#[cycle(expr)]
#[tactic(auto, using(crate::proofs::Lists::link_smaller))]
fn links(
    setting: &Setting<'_>,
    draft: &mut Draft<'_>,
    place: Place,
    start: Left,
    items: &LinkList,
) -> Result<Outcome, Memory>
    ensures { Does outcome_of (lowering.links (setting_of setting.now) place (left_of start) (link_list items.now)) draft.old draft.new result }
{
    let mut left = start;
    for at in 0..items.len() {
        let Some(link) = items.get(at) else {
            return Ok(left.outcome);
        };
        let ctype = link_type(setting, left.kind.ctype, link);
        left = Left::plain(linked(setting, draft, place, left, link)?, ctype);
    }
    Ok(left.outcome)
}

/// Operands joined by operators of one level, at a place.
#[cycle(expr)]
fn chain(
    setting: &Setting<'_>,
    draft: &mut Draft<'_>,
    place: Place,
    start: &Expr,
    items: &LinkList,
) -> Result<Outcome, Memory>
    ensures { Does outcome_of (lowering.outcome (setting_of setting.now) start.now ⨾ λ o. lowering.links (setting_of setting.now) place (lowering.first (setting_of setting.now) start.now o) (link_list items.now)) draft.old draft.new result }
{
    let outcome = lowered(setting, draft, start)?;
    let left = Left {
        outcome,
        kind: find_kind(setting, start),
    };
    links(setting, draft, place, left, items)
}

/// Arguments for parameters of these types, from left to right.
#[cycle(expr)]
#[tactic(auto, using(crate::proofs::Lists::expr_smaller))]
fn arguments(
    setting: &Setting<'_>,
    draft: &mut Draft<'_>,
    parameters: &Sequence<CType>,
    items: &ExprList,
) -> Result<Sequence<Value>, Memory>
    ensures { Does values_of (lowering.arguments (setting_of setting.now) parameters.now (expr_list items.now)) draft.old draft.new result }
{
    let mut values = Sequence::new(setting.alloc);
    for at in 0..items.len() {
        let Some(argument) = items.get(at) else {
            return Ok(values);
        };
        let Some(parameter) = parameters.get(at) else {
            return Ok(values);
        };
        let value = passed(setting, draft, *parameter, argument)?;
        values.push(value)?;
    }
    Ok(values)
}

/// Arguments for the parameters of what is called.
#[cycle(expr)]
fn call_arguments(
    setting: &Setting<'_>,
    draft: &mut Draft<'_>,
    signature: Option<&Signature>,
    items: &ExprList,
) -> Result<Sequence<Value>, Memory>
    ensures { Does values_of (lowering.arguments (setting_of setting.now) (parameters_of (option_copied signature.entry)) (expr_list items.now)) draft.old draft.new result }
{
    match signature {
        Some(signature) => arguments(setting, draft, &signature.parameters, items),
        None => Ok(Sequence::new(setting.alloc)),
    }
}

/// A call of a left operand at a place.
#[cycle(expr)]
fn call(
    setting: &Setting<'_>,
    draft: &mut Draft<'_>,
    place: Place,
    left: Left,
    items: &ExprList,
) -> Result<Outcome, Memory>
    ensures { Does outcome_of (operands.left_value (setting_of setting.now) place (left_of left) ⨾ λ v. lowering.arguments (setting_of setting.now) (parameters_of (called setting.now.scope.now left.kind.ctype)) (expr_list items.now) ⨾ λ vs. lowering.called_with (setting_of setting.now) place left.kind.ctype v vs) draft.old draft.new result }
{
    let ctype = left.kind.ctype;
    let callee = left_value(setting, draft, place, left)?;
    let values = call_arguments(setting, draft, called(setting.scope, ctype), items)?;
    called_with(setting, draft, place, ctype, callee, values)
}

/// An element behind a left operand at a place, at the `[`.
#[cycle(expr)]
fn element(
    setting: &Setting<'_>,
    draft: &mut Draft<'_>,
    place: Place,
    left: Left,
    at: Place,
    index: &Expr,
) -> Result<Outcome, Memory>
    ensures { Does outcome_of (lowering.part (setting_of setting.now) place (left_of left) (syntax.index_ at index.now)) draft.old draft.new result }
{
    let pointer = left_value(setting, draft, place, left)?;
    let index = valued(setting, draft, index)?;
    Ok(Outcome::Awaits(Access::LoadAt(pointer, index, at)))
}

/// A read or call behind a left operand at a place.
#[cycle(expr)]
fn part_behind(
    setting: &Setting<'_>,
    draft: &mut Draft<'_>,
    place: Place,
    left: Left,
    part: &Postfix,
) -> Result<Outcome, Memory>
    ensures { Does outcome_of (lowering.part (setting_of setting.now) place (left_of left) part.now) draft.old draft.new result }
{
    match &part.node {
        PostfixNode::Field(name) => field(setting, draft, place, left, part.place, name),
        PostfixNode::Index(index) => element(setting, draft, place, left, part.place, index),
        PostfixNode::Call(items) => call(setting, draft, place, left, items),
    }
}

/// Reads and calls behind a left operand, from left to right.
#[cycle(expr)]
#[tactic(auto, using(crate::proofs::Lists::postfix_smaller))]
fn parts(
    setting: &Setting<'_>,
    draft: &mut Draft<'_>,
    place: Place,
    start: Left,
    items: &PostfixList,
) -> Result<Outcome, Memory>
    ensures { Does outcome_of (lowering.parts (setting_of setting.now) place (left_of start) (postfix_list items.now)) draft.old draft.new result }
{
    let mut left = start;
    for at in 0..items.len() {
        let Some(part) = items.get(at) else {
            return Ok(left.outcome);
        };
        let ctype = part_type(setting, left.kind.ctype, part);
        left = Left::plain(part_behind(setting, draft, place, left, part)?, ctype);
    }
    Ok(left.outcome)
}

/// A call of `free`, whose name stands at a place, with one argument.
#[cycle(expr)]
fn freed(
    setting: &Setting<'_>,
    draft: &mut Draft<'_>,
    at: Place,
    argument: &Expr,
) -> Result<Outcome, Memory>
    ensures { Does outcome_of (lowering.freed (setting_of setting.now) at argument.now (lowering.outcome (setting_of setting.now) argument.now)) draft.old draft.new result }
{
    let value = valued(setting, draft, argument)?;
    let step = free_step(find_kind(setting, argument).ctype, value, at);
    draft.add(setting.statement, step)?;
    Ok(Outcome::Nothing)
}

/// Reads and calls at a place behind an expression that is not the name `free`.
#[cycle(expr)]
fn parts_behind(
    setting: &Setting<'_>,
    draft: &mut Draft<'_>,
    place: Place,
    start: &Expr,
    items: &PostfixList,
) -> Result<Outcome, Memory>
    ensures { Does outcome_of (lowering.outcome (setting_of setting.now) start.now ⨾ λ o. lowering.parts (setting_of setting.now) place (lowering.first (setting_of setting.now) start.now o) (postfix_list items.now)) draft.old draft.new result }
{
    let outcome = lowered(setting, draft, start)?;
    let left = Left {
        outcome,
        kind: find_kind(setting, start),
    };
    parts(setting, draft, place, left, items)
}

/// Reads and calls at a place behind an expression.
#[cycle(expr)]
#[tactic(auto, using(crate::proofs::Calls::argument_smaller))]
fn postfix(
    setting: &Setting<'_>,
    draft: &mut Draft<'_>,
    place: Place,
    start: &Expr,
    items: &PostfixList,
) -> Result<Outcome, Memory>
    ensures { Does outcome_of (lowering.behind (setting_of setting.now) place (free_place setting.now.scope.now start.now) start.now (lowering.outcome (setting_of setting.now) start.now) (postfix_list items.now)) draft.old draft.new result }
{
    let Some(at) = free_name(setting.scope, start) else {
        return parts_behind(setting, draft, place, start, items);
    };
    match only_argument(items) {
        Some(argument) => freed(setting, draft, at, argument),
        None => parts_behind(setting, draft, place, start, items),
    }
}

/// What an expression becomes.
#[cycle(expr)]
pub fn lowered(setting: &Setting<'_>, draft: &mut Draft<'_>, expr: &Expr) -> Result<Outcome, Memory>
    ensures { Does outcome_of (lowering.outcome (setting_of setting.now) expr.now) draft.old draft.new result }
{
    match &expr.node {
        ExprNode::Number(number, _) => Ok(Outcome::Is(Value::Number(*number))),
        ExprNode::Character(byte) => Ok(Outcome::Is(Value::Number(u64::from(*byte)))),
        ExprNode::True => Ok(Outcome::Is(Value::Truth(true))),
        ExprNode::False => Ok(Outcome::Is(Value::Truth(false))),
        ExprNode::Name(name) => Ok(Outcome::Is(named(setting, expr.place, name))),
        ExprNode::Parenthesized(inner) => lowered(setting, draft, inner),
        ExprNode::Malloc(tag) => Ok(Outcome::Awaits(Access::Allocate(tag_number(setting, tag)))),
        ExprNode::MallocInts(length, star) => {
            let length = valued(setting, draft, length)?;
            Ok(Outcome::Awaits(Access::AllocateInts(length, *star)))
        }
        ExprNode::Postfix(start, parts) => postfix(setting, draft, expr.place, start, parts),
        ExprNode::Unary(operator, operand) => {
            prefixed(setting, draft, expr.place, *operator, operand)
        }
        ExprNode::Cast(_, operand) => {
            let ctype = find_kind(setting, expr).ctype;
            Ok(Outcome::Is(passed(setting, draft, ctype, operand)?))
        }
        ExprNode::Chain(_, start, items) => chain(setting, draft, expr.place, start, items),
        ExprNode::Conditional(test, so, otherwise) => {
            let ctype = find_kind(setting, expr).ctype;
            let test = tested(setting, draft, test)?;
            choice(setting, draft, expr.place, ctype, test, so, otherwise)
        }
    }
}
