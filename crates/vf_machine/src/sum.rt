//! Sums of numbers and locals.

ghost use Rattle.std.specs.Prelude.{◌≡◌};
ghost use Rattle.vf_base.specs.declared.int_type.IntType.TheVariants as types;
ghost use Rattle.vf_tree.specs.Shown.{operand_of, operator_of, expression_of};
ghost use Rattle.vf_model.specs.Integers.{in_range};
ghost use Rattle.vf_model.specs.Values.{number_of};
ghost use Rattle.vf_model.specs.Evaluation.{evaluate, and_then, computed};
ghost use Rattle.vf_machine.specs.Machine.{values_of};
ghost use Rattle.vf_machine.specs.Effects.{evaluated, int_or_fault};

use vf_base::Place;
use vf_model::FaultKind;
use vf_tree::{Expression, Link, Operand, Operator};

/// A fault that a step meets, and where.
#[derive(Clone, Copy, Debug, PartialEq, Eq)]
pub struct Trouble {
    pub kind: FaultKind,
    pub place: Place,
}

/// The value of an operand.
fn operand_value(locals: &[Option<i128>], operand: &Operand) -> Result<i128, Trouble>
    ensures { evaluated result ≡ evaluate (values_of locals.now) (operand_of operand.now) }
{
    match operand {
        Operand::Number(number) => Ok(*number),
        Operand::Local { local, place } => match locals.get(*local as usize).copied() {
            Some(Some(value)) => Ok(value),
            _ => Err(Trouble {
                kind: FaultKind::Unset,
                place: *place,
            }),
        },
    }
}

/// Whether a number is an `int`.
fn is_int(number: i128) -> bool
    ensures { result ≡ in_range types.Int number }
{
    i128::from(i32::MIN) <= number && number <= i128::from(i32::MAX)
}

/// The number, where it is an `int`.
fn int_at(number: Option<i128>, place: Place) -> Result<i128, Trouble>
    ensures { evaluated result ≡ int_or_fault number place }
{
    match number {
        Some(number) if is_int(number) => Ok(number),
        _ => Err(Trouble {
            kind: FaultKind::Range,
            place,
        }),
    }
}

/// The value of a sum with one more operand on its right.
fn linked_value(left: i128, link: &Link, locals: &[Option<i128>]) -> Result<i128, Trouble>
    ensures { evaluated result ≡ and_then (evaluate (values_of locals.now) (operand_of link.now.operand))
        (λ right. computed (operator_of link.now.operator) types.Int link.now.place left (number_of right)) }
{
    let right = operand_value(locals, &link.operand)?;
    match link.operator {
        Operator::Add => int_at(left.checked_add(right), link.place),
        Operator::Subtract => int_at(left.checked_sub(right), link.place),
    }
}

/// The value of a sum, or its first fault.
pub fn sum_value(locals: &[Option<i128>], sum: &Expression) -> Result<i128, Trouble>
    ensures { evaluated result ≡ evaluate (values_of locals.now) (expression_of sum.now) }
{
    let mut value = operand_value(locals, &sum.first)?;
    for link in sum.rest.as_slice() {
        value = linked_value(value, link, locals)?;
    }
    Ok(value)
}
