//! Assignments by `=`, and first values of locals.

ghost use Rattle.std.specs.Prelude.{◌≡◌};
ghost use Rattle.vf_steps.specs.Shown.{value_of};
ghost use Rattle.vf_lower.specs.Did.{Does};
ghost use Rattle.vf_lower.specs.Operands.{value_into};
ghost use Rattle.vf_lower.specs.Shown.{access_of, outcome_of, setting_of};
ghost use Rattle.vf_lower.specs.Simple.{becomes, becomes_at, becomes_element, becomes_field, becomes_local, goes_into, is_pointer, outcome_as, put, put_local, put_result};

use vf_base::{Memory, Place};
use vf_declared::ctype::CType;
use vf_lower::{
    Access, Draft, Outcome, Setting, adapted, as_value, find_kind, lowered, passed, place_of,
    set_local,
};
use vf_steps::{Action, FieldNumber, Value};
use vf_syntax::expr::Expr;

/// Whether it is a pointer type.
fn is_pointer(of: CType) -> bool
    ensures { result ≡ is_pointer of }
{
    match of {
        CType::VoidPointer
        | CType::IntPointer
        | CType::StructPointer(_)
        | CType::FunctionPointer(_) => true,
        _ => false,
    }
}

/// Whether what has the second type goes into a local of the first as it is.
fn goes_into(to: CType, from: CType) -> bool
    ensures { result ≡ goes_into to from }
{
    to.same(from) || (is_pointer(to) && is_pointer(from))
}

/// What is left of an expression as a value that passes for one of a type.
fn outcome_as(
    setting: &Setting<'_>,
    draft: &mut Draft<'_>,
    ctype: CType,
    expr: &Expr,
    outcome: Outcome,
) -> Result<Value, Memory>
    ensures { Does value_of (outcome_as (setting_of setting.now) ctype expr.now (outcome_of outcome)) draft.old draft.new result }
{
    let kind = find_kind(setting, expr);
    let place = place_of(expr);
    let value = as_value(setting, draft, kind.ctype, place, outcome)?;
    adapted(setting, draft, ctype, kind, value, place)
}

/// Puts what is left of an expression into a local of a type, as a value.
fn put_value(
    setting: &Setting<'_>,
    draft: &mut Draft<'_>,
    local: usize,
    ctype: CType,
    expr: &Expr,
    outcome: Outcome,
) -> Result<(), Memory>
    ensures { Does (λ u. tt) (value_into (setting_of setting.now) local (outcome_as (setting_of setting.now) ctype expr.now (outcome_of outcome))) draft.old draft.new result }
{
    let value = outcome_as(setting, draft, ctype, expr, outcome)?;
    set_local(setting, draft, local, value)
}

/// Puts the result of an access into a local of a type, at once where it can.
fn put_result(
    setting: &Setting<'_>,
    draft: &mut Draft<'_>,
    local: usize,
    ctype: CType,
    expr: &Expr,
    access: Access,
) -> Result<(), Memory>
    ensures { Does (λ u. tt) (put_result (setting_of setting.now) local ctype expr.now (access_of access)) draft.old draft.new result }
{
    if goes_into(ctype, find_kind(setting, expr).ctype) {
        draft.add(setting.statement, access.into_step(local))
    } else {
        put_value(setting, draft, local, ctype, expr, Outcome::Awaits(access))
    }
}

/// Puts what is left of an expression into a local of a type.
fn put(
    setting: &Setting<'_>,
    draft: &mut Draft<'_>,
    local: usize,
    ctype: CType,
    expr: &Expr,
    outcome: Outcome,
) -> Result<(), Memory>
    ensures { Does (λ u. tt) (put (setting_of setting.now) local ctype expr.now (outcome_of outcome)) draft.old draft.new result }
{
    match outcome {
        Outcome::Awaits(access) => put_result(setting, draft, local, ctype, expr, access),
        other => put_value(setting, draft, local, ctype, expr, other),
    }
}

/// Puts an expression into a local of a type.
pub fn put_local(
    setting: &Setting<'_>,
    draft: &mut Draft<'_>,
    local: usize,
    ctype: CType,
    expr: &Expr,
) -> Result<(), Memory>
    ensures { Does (λ u. tt) (put_local (setting_of setting.now) local ctype expr.now) draft.old draft.new result }
{
    let outcome = lowered(setting, draft, expr)?;
    put(setting, draft, local, ctype, expr, outcome)
}

/// Assigns an expression to a value that reads a local of a type.
fn becomes_local(
    setting: &Setting<'_>,
    draft: &mut Draft<'_>,
    ctype: CType,
    value: &Value,
    expr: &Expr,
) -> Result<(), Memory>
    ensures { Does (λ u. tt) (becomes_local (setting_of setting.now) ctype (value_of value.now) expr.now) draft.old draft.new result }
{
    match value {
        Value::Read { local, place: _ } => put_local(setting, draft, *local, ctype, expr),
        _ => Ok(()),
    }
}

/// Assigns an expression to a field of a type behind a pointer, at the `->`.
fn becomes_field(
    setting: &Setting<'_>,
    draft: &mut Draft<'_>,
    ctype: CType,
    pointer: Value,
    field: FieldNumber,
    place: Place,
    expr: &Expr,
) -> Result<(), Memory>
    ensures { Does (λ u. tt) (becomes_field (setting_of setting.now) ctype (value_of pointer) field place expr.now) draft.old draft.new result }
{
    let value = passed(setting, draft, ctype, expr)?;
    draft.add(
        setting.statement,
        Action::Store {
            pointer,
            field,
            value,
            place,
        },
    )
}

/// Assigns an expression to an element of a type, by its pointer and index, at the `[`.
fn becomes_element(
    setting: &Setting<'_>,
    draft: &mut Draft<'_>,
    ctype: CType,
    pointer: Value,
    index: Value,
    place: Place,
    expr: &Expr,
) -> Result<(), Memory>
    ensures { Does (λ u. tt) (becomes_element (setting_of setting.now) ctype (value_of pointer) (value_of index) place expr.now) draft.old draft.new result }
{
    let value = passed(setting, draft, ctype, expr)?;
    draft.add(
        setting.statement,
        Action::StoreAt {
            pointer,
            index,
            value,
            place,
        },
    )
}

/// Assigns an expression to what an access of a type reads.
fn becomes_at(
    setting: &Setting<'_>,
    draft: &mut Draft<'_>,
    ctype: CType,
    access: Access,
    expr: &Expr,
) -> Result<(), Memory>
    ensures { Does (λ u. tt) (becomes_at (setting_of setting.now) ctype (access_of access) expr.now) draft.old draft.new result }
{
    match access {
        Access::Load(pointer, field, place) => {
            becomes_field(setting, draft, ctype, pointer, field, place, expr)
        }
        Access::LoadAt(pointer, index, place) => {
            becomes_element(setting, draft, ctype, pointer, index, place, expr)
        }
        _ => Ok(()),
    }
}

/// Assigns an expression to what is left of a left side of a type.
pub fn becomes(
    setting: &Setting<'_>,
    draft: &mut Draft<'_>,
    ctype: CType,
    outcome: Outcome,
    expr: &Expr,
) -> Result<(), Memory>
    ensures { Does (λ u. tt) (becomes (setting_of setting.now) ctype (outcome_of outcome) expr.now) draft.old draft.new result }
{
    match outcome {
        Outcome::Is(value) => becomes_local(setting, draft, ctype, &value, expr),
        Outcome::Awaits(access) => becomes_at(setting, draft, ctype, access, expr),
        _ => Ok(()),
    }
}
