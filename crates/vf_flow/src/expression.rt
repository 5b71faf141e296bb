//! Values as expressions.

ghost use Rattle.std.specs.Prelude.{◌≡◌, IfOk, map, option_map};
ghost use Rattle.vf_core.specs.Shown.{expression_of, expressions_of};
ghost use Rattle.vf_steps.specs.Core.{expression_tree};
ghost use Rattle.vf_steps.specs.Shown.{value_of, values_of};
ghost use Rattle.vf_flow.specs.Named.{naming_of};

use crate::naming::Naming;
use crate::numbers::narrow;
use std::alloc::Global;
use vf_base::{Memory, Sequence};
use vf_core::Expression;
use vf_steps::Value;

/// A value as an expression.
pub fn expression(alloc: Global, naming: &Naming<'_>, value: &Value) -> Result<Expression, Memory>
    ensures { IfOk result (λ e. expression_of naming.now.names.now e ≡ expression_tree (naming_of naming.now) (value_of value.now)) }
{
    Ok(match value {
        Value::Read { local, place } => Expression::Read {
            local: narrow(*local)?,
            place: *place,
        },
        Value::Number(number) => Expression::Number(i128::from(*number)),
        Value::Truth(truth) => Expression::Truth(*truth),
        Value::Null => Expression::Null,
        Value::Function(number) => Expression::Function(naming.function(*number)),
        Value::Negate { of, value, place } => Expression::Negate {
            of: *of,
            value: Box::new(alloc, expression(alloc, naming, value)?)?,
            place: *place,
        },
        Value::Arithmetic {
            operator,
            of,
            left,
            right,
            place,
        } => Expression::Arithmetic {
            operator: *operator,
            of: *of,
            left: Box::new(alloc, expression(alloc, naming, left)?)?,
            right: Box::new(alloc, expression(alloc, naming, right)?)?,
            place: *place,
        },
        Value::Convert {
            from: _,
            to,
            value,
            place,
        } => Expression::Convert {
            to: *to,
            value: Box::new(alloc, expression(alloc, naming, value)?)?,
            place: *place,
        },
    })
}

/// Values as expressions, in order.
pub fn expressions(
    alloc: Global,
    naming: &Naming<'_>,
    values: &Sequence<Value>,
) -> Result<Sequence<Expression>, Memory>
    ensures { IfOk result (λ es. expressions_of naming.now.names.now es ≡ map (expression_tree (naming_of naming.now)) (values_of values.now)) }
{
    let mut all = Sequence::new(alloc);
    for value in values.as_slice() {
        all.push(expression(alloc, naming, value)?)?;
    }
    Ok(all)
}

/// A value as an expression, where there is one.
pub fn optional_expression(
    alloc: Global,
    naming: &Naming<'_>,
    value: &Option<Value>,
) -> Result<Option<Expression>, Memory>
    ensures { IfOk result (λ e. option_map (expression_of naming.now.names.now) e ≡ option_map (expression_tree (naming_of naming.now)) (option_map value_of value.now)) }
{
    match value {
        Some(value) => Ok(Some(expression(alloc, naming, value)?)),
        None => Ok(None),
    }
}
