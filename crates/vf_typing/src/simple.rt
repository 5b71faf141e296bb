//! Assignments, and conditions.

ghost use Rattle.std.specs.Prelude.{◌≡◌};
ghost use Rattle.vf_typing.specs.Typed as typing;
ghost use Rattle.vf_typing.specs.Simple.{assigned, assignment_refusal, changed_refusal, is_target, refused_condition, refused_simple, step_refusal, takes_step, takes_target, takes_value, target};

use crate::expr::{assigned, typed, typed_value};
use crate::operand::Operand;
use crate::operators::if_typed;
use crate::refusal::refused;
use crate::types::{is_index, is_int_pointer, is_integer};
use vf_base::{Refusal, Rule};
use vf_declared::ctype::CType;
use vf_declared::scope::Scope;
use vf_syntax::expr::{Expr, ExprNode};
use vf_syntax::operator::{AssignmentOperator, StepOperator};
use vf_syntax::simple::Simple;

/// Whether an expression is of a form that is assigned.
fn is_target(scope: &Scope, expr: &Expr) -> bool
    ensures { result ≡ is_target scope.now expr.now }
{
    match &expr.node {
        ExprNode::Name(name) => scope.local(name).is_some(),
        _ => true,
    }
}

/// The left side of an assignment.
pub fn target(scope: &Scope, expr: &Expr) -> Result<Operand, Refusal>
    ensures { result ≡ target scope.now expr.now }
{
    let operand = typed_value(scope, expr)?;
    if_typed(is_target(scope, expr), operand.place, operand)
}

/// Whether an operator other than `=` takes a left side of a type.
fn takes_target(operator: AssignmentOperator, ctype: CType) -> bool
    ensures { result ≡ takes_target operator ctype }
{
    match operator {
        AssignmentOperator::PlusBecomes => is_integer(ctype) || is_int_pointer(ctype),
        _ => is_integer(ctype),
    }
}

/// Whether an operator other than `=` takes a right side of the second type beside a left side of the first.
fn takes_value(operator: AssignmentOperator, left: CType, right: CType) -> bool
    ensures { result ≡ takes_value operator left right }
{
    match operator {
        AssignmentOperator::PlusBecomes => {
            if is_int_pointer(left) {
                is_index(right)
            } else {
                is_integer(right)
            }
        }
        _ => is_integer(right),
    }
}

/// The refusal of an assignment to a left side by an operator other than `=`.
fn changed(
    scope: &Scope,
    operator: AssignmentOperator,
    left: Operand,
    right: &Expr,
) -> Option<Refusal>
    ensures { result ≡ changed_refusal operator left (typing.typed scope.now right.now) }
{
    if !takes_target(operator, left.ctype) {
        return Some(refused(Rule::Typing, left.place));
    }
    match typed(scope, right) {
        Err(refusal) => Some(refusal),
        Ok(value) => {
            if takes_value(operator, left.ctype, value.ctype) {
                None
            } else {
                Some(refused(Rule::Typing, value.place))
            }
        }
    }
}

/// The refusal of an assignment to a left side.
fn assignment_refusal(
    scope: &Scope,
    operator: AssignmentOperator,
    left: Operand,
    right: &Expr,
) -> Option<Refusal>
    ensures { result ≡ assignment_refusal scope.now operator left (typing.typed scope.now right.now) }
{
    match operator {
        AssignmentOperator::Becomes => assigned(scope, left.ctype, right),
        _ => changed(scope, operator, left, right),
    }
}

/// The refusal of an assignment of a right side to a left side.
fn assigned_to(
    scope: &Scope,
    operator: AssignmentOperator,
    left: &Expr,
    right: &Expr,
) -> Option<Refusal>
    ensures { result ≡ assigned scope.now operator (target scope.now left.now) (typing.typed scope.now right.now) }
{
    match target(scope, left) {
        Err(refusal) => Some(refusal),
        Ok(operand) => assignment_refusal(scope, operator, operand, right),
    }
}

/// Whether `++` or `--` takes an operand of a type.
fn takes_step(operator: StepOperator, ctype: CType) -> bool
    ensures { result ≡ takes_step operator ctype }
{
    match operator {
        StepOperator::Increment => is_integer(ctype) || is_int_pointer(ctype),
        StepOperator::Decrement => is_integer(ctype),
    }
}

/// The refusal of `++` or `--`.
fn step_refusal(scope: &Scope, operator: StepOperator, left: &Expr) -> Option<Refusal>
    ensures { result ≡ step_refusal operator (target scope.now left.now) }
{
    match target(scope, left) {
        Err(refusal) => Some(refusal),
        Ok(operand) => {
            if takes_step(operator, operand.ctype) {
                None
            } else {
                Some(refused(Rule::Typing, operand.place))
            }
        }
    }
}

/// The first refusal of an assignment or a call.
pub fn refused_simple(scope: &Scope, simple: &Simple) -> Option<Refusal>
    ensures { result ≡ refused_simple scope.now simple.now }
{
    match simple {
        Simple::Assignment(left, operator, _, right) => assigned_to(scope, *operator, left, right),
        Simple::StepAfter(left, operator, _) => step_refusal(scope, *operator, left),
        Simple::StepBefore(_, operator, left) => step_refusal(scope, *operator, left),
        Simple::Call(expr) => typed(scope, expr).err(),
    }
}

/// The first refusal of a condition.
pub fn refused_condition(scope: &Scope, expr: &Expr) -> Option<Refusal>
    ensures { result ≡ refused_condition scope.now expr.now }
{
    typed_value(scope, expr).err()
}
