//! First values of locals, as `vf_bodies` puts them.

ghost use Rattle.std.specs.Prelude.{◌≡◌};
ghost use Rattle.vf_steps.specs.Shown.{value_of};
ghost use Rattle.vf_lower.specs.Did.{Does};
ghost use Rattle.vf_lower.specs.Operands.{value_into};
ghost use Rattle.vf_lower.specs.Shown.{access_of, outcome_of, setting_of};
ghost use Rattle.vf_lower.specs.Simple.{goes_into, is_pointer, outcome_as, put, put_local, put_result};

use vf_base::Memory;
use vf_declared::ctype::CType;
use vf_lower::{
    Access, Draft, Outcome, Setting, adapted, as_value, find_kind, lowered, place_of, set_local,
};
use vf_steps::Value;
use vf_syntax::expr::Expr;

/// Whether it is a pointer type.
fn is_pointer(of: CType) -> bool
    ensures { result ≡ is_pointer of }
{
    match of {
        CType::VoidPointer
        | CType::IntPointer
        | CType::StructPointer(_)
        | CType::FunctionPointer(_) => true,
        _ => false,
    }
}

/// Whether what has the second type goes into a local of the first as it is.
fn goes_into(to: CType, from: CType) -> bool
    ensures { result ≡ goes_into to from }
{
    to.same(from) || (is_pointer(to) && is_pointer(from))
}

/// What is left of an expression as a value that passes for one of a type.
fn outcome_as(
    setting: &Setting<'_>,
    draft: &mut Draft<'_>,
    ctype: CType,
    expr: &Expr,
    outcome: Outcome,
) -> Result<Value, Memory>
    ensures { Does value_of (outcome_as (setting_of setting.now) ctype expr.now (outcome_of outcome)) draft.old draft.new result }
{
    let kind = find_kind(setting, expr);
    let place = place_of(expr);
    let value = as_value(setting, draft, kind.ctype, place, outcome)?;
    adapted(setting, draft, ctype, kind, value, place)
}

/// Puts what is left of an expression into a local of a type, as a value.
fn put_value(
    setting: &Setting<'_>,
    draft: &mut Draft<'_>,
    local: usize,
    ctype: CType,
    expr: &Expr,
    outcome: Outcome,
) -> Result<(), Memory>
    ensures { Does (λ u. tt) (value_into (setting_of setting.now) local (outcome_as (setting_of setting.now) ctype expr.now (outcome_of outcome))) draft.old draft.new result }
{
    let value = outcome_as(setting, draft, ctype, expr, outcome)?;
    set_local(setting, draft, local, value)
}

/// Puts the result of an access into a local of a type, at once where it can.
fn put_result(
    setting: &Setting<'_>,
    draft: &mut Draft<'_>,
    local: usize,
    ctype: CType,
    expr: &Expr,
    access: Access,
) -> Result<(), Memory>
    ensures { Does (λ u. tt) (put_result (setting_of setting.now) local ctype expr.now (access_of access)) draft.old draft.new result }
{
    if goes_into(ctype, find_kind(setting, expr).ctype) {
        draft.add(setting.statement, access.into_step(local))
    } else {
        put_value(setting, draft, local, ctype, expr, Outcome::Awaits(access))
    }
}

/// Puts what is left of an expression into a local of a type.
fn put(
    setting: &Setting<'_>,
    draft: &mut Draft<'_>,
    local: usize,
    ctype: CType,
    expr: &Expr,
    outcome: Outcome,
) -> Result<(), Memory>
    ensures { Does (λ u. tt) (put (setting_of setting.now) local ctype expr.now (outcome_of outcome)) draft.old draft.new result }
{
    match outcome {
        Outcome::Awaits(access) => put_result(setting, draft, local, ctype, expr, access),
        other => put_value(setting, draft, local, ctype, expr, other),
    }
}

/// Puts an expression into a local of a type.
pub fn put_local(
    setting: &Setting<'_>,
    draft: &mut Draft<'_>,
    local: usize,
    ctype: CType,
    expr: &Expr,
) -> Result<(), Memory>
    ensures { Does (λ u. tt) (put_local (setting_of setting.now) local ctype expr.now) draft.old draft.new result }
{
    let outcome = lowered(setting, draft, expr)?;
    put(setting, draft, local, ctype, expr, outcome)
}
