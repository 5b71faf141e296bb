//! Conversions between types (C11 6.3.1, 6.3.2.3).

ghost use Rattle.std.specs.Prelude.{◌≡◌, IfOk};
ghost use Rattle.vf_declared.specs.declared.ctype.CType.TheVariants as types;
ghost use Rattle.vf_declared.specs.Types.{same_integer};
ghost use Rattle.vf_steps.specs.Shown.{value_of};
ghost use Rattle.vf_lower.specs.Branches as branches;
ghost use Rattle.vf_lower.specs.Conversions.{adapted, as_truth, converted, is_bool, is_set, to_integer, widened, zero_of};
ghost use Rattle.vf_lower.specs.Shown.{kind_of, setting_of, test_of};
ghost use Rattle.vf_lower.specs.Did.{Does};

use crate::draft::Draft;
use crate::setting::{Kind, Setting};
use crate::test::Test;
use vf_base::{IntType, Memory, Place};
use vf_core::Comparison;
use vf_declared::ctype::CType;
use vf_steps::{Action, Value};

/// Puts one of two values into a local of a type, and reads it there at a place.
pub fn selected(
    setting: &Setting<'_>,
    draft: &mut Draft<'_>,
    test: Test,
    ctype: CType,
    so: Value,
    otherwise: Value,
    place: Place,
) -> Result<Value, Memory>
    ensures { Does value_of (branches.selected (setting_of setting.now).statement (test_of test) ctype (value_of so) (value_of otherwise) place) draft.old draft.new result }
{
    let statement = setting.statement;
    let local = draft.take(ctype)?;
    let mut first = draft.aside(setting.alloc);
    first.add(statement, Action::Set { local, value: so })?;
    let mut second = first.aside(setting.alloc);
    second.add(
        statement,
        Action::Set {
            local,
            value: otherwise,
        },
    )?;
    draft.join(statement, test, first.nodes, second)?;
    Ok(Value::Read { local, place })
}

/// The value with which a value of a type is compared where it is a condition.
fn zero_of(ctype: CType) -> Value
    ensures { value_of result ≡ zero_of ctype }
{
    match ctype {
        CType::Integer(IntType::Bool) => Value::Truth(false),
        CType::Integer(_) => Value::Number(0),
        _ => Value::Null,
    }
}

/// A value of a type as a condition.
pub fn is_set(ctype: CType, value: Value) -> Test
    ensures { test_of result ≡ is_set ctype (value_of value) }
{
    Test::new(Comparison::NotEqual, value, zero_of(ctype))
}

/// Makes a value of a type a truth value at a place.
pub fn as_truth(
    setting: &Setting<'_>,
    draft: &mut Draft<'_>,
    ctype: CType,
    value: Value,
    place: Place,
) -> Result<Value, Memory>
    ensures { Does value_of (as_truth (setting_of setting.now).statement ctype (value_of value) place) draft.old draft.new result }
{
    match ctype {
        CType::Integer(IntType::Bool) => Ok(value),
        _ => {
            let test = is_set(ctype, value);
            let truth = CType::Integer(IntType::Bool);
            selected(
                setting,
                draft,
                test,
                truth,
                Value::Truth(true),
                Value::Truth(false),
                place,
            )
        }
    }
}

/// A number of an integer type other than `bool` in another.
fn widened(
    setting: &Setting<'_>,
    from: IntType,
    to: IntType,
    value: Value,
    place: Place,
) -> Result<Value, Memory>
    ensures { IfOk result (λ v. value_of v ≡ widened from to (value_of value) place) }
{
    if CType::Integer(from).same(CType::Integer(to)) {
        return Ok(value);
    }
    Ok(Value::Convert {
        from,
        to,
        value: Box::new(setting.alloc, value)?,
        place,
    })
}

/// Whether it is `bool`.
fn is_bool(of: IntType) -> bool
    ensures { result ≡ is_bool of }
{
    match of {
        IntType::Bool => true,
        _ => false,
    }
}

/// Converts a value of an integer type to another at a place.
fn converted(
    setting: &Setting<'_>,
    draft: &mut Draft<'_>,
    from: IntType,
    to: IntType,
    value: Value,
    place: Place,
) -> Result<Value, Memory>
    ensures { Does value_of (converted (setting_of setting.now).statement from to (value_of value) place) draft.old draft.new result }
{
    if is_bool(to) {
        as_truth(setting, draft, CType::Integer(from), value, place)
    } else if is_bool(from) {
        let test = is_set(CType::Integer(from), value);
        let ctype = CType::Integer(to);
        selected(
            setting,
            draft,
            test,
            ctype,
            Value::Number(1),
            Value::Number(0),
            place,
        )
    } else {
        widened(setting, from, to, value, place)
    }
}

/// Makes a value of a kind pass for one of a type at a place.
pub fn adapted(
    setting: &Setting<'_>,
    draft: &mut Draft<'_>,
    ctype: CType,
    kind: Kind,
    value: Value,
    place: Place,
) -> Result<Value, Memory>
    ensures { Does value_of (adapted (setting_of setting.now).statement ctype (kind_of kind) (value_of value) place) draft.old draft.new result }
{
    match (ctype, kind.ctype) {
        (CType::Integer(to), CType::Integer(from)) => {
            converted(setting, draft, from, to, value, place)
        }
        (CType::Integer(_), _) => Ok(value),
        _ => {
            if kind.is_null {
                Ok(Value::Null)
            } else {
                Ok(value)
            }
        }
    }
}
