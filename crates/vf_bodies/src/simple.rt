//! Assignments and calls.

ghost use Rattle.std.specs.Prelude.{◌≡◌};
ghost use Rattle.vf_lower.specs.Did.{Does};
ghost use Rattle.vf_lower.specs.Shown.{outcome_of, setting_of};
ghost use Rattle.vf_lower.specs.Simple.{assigned, one, simple, stepped, unused};
ghost use Rattle.vf_syntax.specs.declared.simple.Simple.TheVariants as simples;

use crate::assignment::becomes;
use crate::change::{Change, changes, operator_in, step_operator};
use vf_base::{IntType, Memory, Place};
use vf_declared::ctype::CType;
use vf_lower::{Draft, Outcome, Setting, find_kind, lowered, place_of};
use vf_syntax::expr::{Expr, ExprNode};
use vf_syntax::operator::{AssignmentOperator, StepOperator};
use vf_syntax::simple::Simple;

/// The number 1 at a place.
fn one(place: Place) -> Expr
    ensures { result ≡ one place }
{
    Expr {
        place,
        node: ExprNode::Number(1, IntType::Int),
    }
}

/// An assignment by an operator at a place to what is left of a left side.
fn assigned(
    setting: &Setting<'_>,
    draft: &mut Draft<'_>,
    left: &Expr,
    operator: AssignmentOperator,
    at: Place,
    right: &Expr,
    outcome: Outcome,
) -> Result<(), Memory>
    ensures { Does (λ u. tt) (assigned (setting_of setting.now) left.now operator at right.now (outcome_of outcome)) draft.old draft.new result }
{
    let ctype = find_kind(setting, left).ctype;
    match operator {
        AssignmentOperator::Becomes => becomes(setting, draft, ctype, outcome, right),
        other => {
            let change = Change {
                ctype,
                place: place_of(left),
                operator: operator_in(other),
                at,
                operand: right,
            };
            changes(setting, draft, &change, outcome)
        }
    }
}

/// An assignment.
fn assignment(
    setting: &Setting<'_>,
    draft: &mut Draft<'_>,
    left: &Expr,
    operator: AssignmentOperator,
    at: Place,
    right: &Expr,
) -> Result<(), Memory>
    ensures { Does (λ u. tt) (simple (setting_of setting.now) (simples.Assignment left.now operator at right.now)) draft.old draft.new result }
{
    let outcome = lowered(setting, draft, left)?;
    assigned(setting, draft, left, operator, at, right, outcome)
}

/// `++` or `--` at a place.
fn stepped(
    setting: &Setting<'_>,
    draft: &mut Draft<'_>,
    left: &Expr,
    operator: StepOperator,
    at: Place,
) -> Result<(), Memory>
    ensures { Does (λ u. tt) (stepped (setting_of setting.now) left.now operator at) draft.old draft.new result }
{
    let outcome = lowered(setting, draft, left)?;
    let place = place_of(left);
    let operand = one(place);
    let change = Change {
        ctype: find_kind(setting, left).ctype,
        place,
        operator: step_operator(operator),
        at,
        operand: &operand,
    };
    changes(setting, draft, &change, outcome)
}

/// Puts a result of a type that is not used into a local of its own.
fn unused(
    setting: &Setting<'_>,
    draft: &mut Draft<'_>,
    ctype: CType,
    outcome: Outcome,
) -> Result<(), Memory>
    ensures { Does (λ u. tt) (unused (setting_of setting.now) ctype (outcome_of outcome)) draft.old draft.new result }
{
    match outcome {
        Outcome::Awaits(access) => {
            let local = draft.take(ctype)?;
            draft.add(setting.statement, access.into_step(local))
        }
        _ => Ok(()),
    }
}

/// A call whose result is not used.
fn call(setting: &Setting<'_>, draft: &mut Draft<'_>, expr: &Expr) -> Result<(), Memory>
    ensures { Does (λ u. tt) (simple (setting_of setting.now) (simples.Call expr.now)) draft.old draft.new result }
{
    let outcome = lowered(setting, draft, expr)?;
    unused(setting, draft, find_kind(setting, expr).ctype, outcome)
}

/// Adds to a draft what an assignment or a call becomes.
pub fn lower_simple(
    setting: &Setting<'_>,
    draft: &mut Draft<'_>,
    part: &Simple,
) -> Result<(), Memory>
    ensures { Does (λ u. tt) (simple (setting_of setting.now) part.now) draft.old draft.new result }
{
    match part {
        Simple::Assignment(left, operator, at, right) => {
            assignment(setting, draft, left, *operator, *at, right)
        }
        Simple::StepAfter(left, operator, at) => stepped(setting, draft, left, *operator, *at),
        Simple::StepBefore(at, operator, left) => stepped(setting, draft, left, *operator, *at),
        Simple::Call(expr) => call(setting, draft, expr),
    }
}
