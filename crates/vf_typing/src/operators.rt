//! Operators, casts and choices.

ghost use Rattle.std.specs.Prelude.{◌≡◌, Ok};
ghost use Rattle.vf_typing.specs.Operands.{cast, casts, chosen, if_typed, joined, negative, prefixed, takes_left, takes_right};

use crate::operand::Operand;
use crate::passing::comparable;
use crate::refusal::refused;
use crate::types::{
    choice_type, is_address, is_index, is_int_pointer, is_integer, is_void, result_type,
};
use vf_base::{IntType, Place, Refusal, Rule};
use vf_ctypes::promote;
use vf_declared::ctype::CType;
use vf_declared::scope::Scope;
use vf_syntax::operator::{BinaryOperator, UnaryOperator};

/// What is kept where a test holds, and else a refusal of types at a place.
pub fn if_typed(holds: bool, place: Place, operand: Operand) -> Result<Operand, Refusal>
    ensures { result ≡ if_typed holds place operand }
{
    if holds {
        Ok(operand)
    } else {
        Err(refused(Rule::Typing, place))
    }
}

/// Whether an operator takes a left operand of a type.
pub fn takes_left(operator: BinaryOperator, left: CType) -> bool
    ensures { result ≡ takes_left operator left }
{
    match operator {
        BinaryOperator::Plus => is_integer(left) || is_int_pointer(left),
        BinaryOperator::Equal | BinaryOperator::NotEqual => !is_void(left),
        BinaryOperator::And | BinaryOperator::Or => !is_void(left),
        _ => is_integer(left),
    }
}

/// Whether an operator takes a right operand beside a left one.
fn takes_right(scope: &Scope, operator: BinaryOperator, left: Operand, right: Operand) -> bool
    ensures { result ≡ takes_right scope.now operator left.is_null left.ctype right.is_null right.ctype }
{
    match operator {
        BinaryOperator::Plus => {
            if is_int_pointer(left.ctype) {
                is_index(right.ctype)
            } else {
                is_integer(right.ctype)
            }
        }
        BinaryOperator::Equal | BinaryOperator::NotEqual => {
            !is_void(right.ctype) && comparable(scope, left, right)
        }
        BinaryOperator::And | BinaryOperator::Or => !is_void(right.ctype),
        _ => is_integer(right.ctype),
    }
}

/// What an operator makes of two operands.
pub fn joined(
    scope: &Scope,
    operator: BinaryOperator,
    left: Operand,
    right: Operand,
) -> Result<Operand, Refusal>
    ensures { result ≡ joined scope.now operator left right }
{
    let taken = takes_right(scope, operator, left, right);
    let ctype = result_type(operator, left.ctype, right.ctype);
    if_typed(taken, right.place, Operand::value(left.place, ctype))
}

/// A negative at a place.
fn negative(place: Place, operand: Operand) -> Result<Operand, Refusal>
    ensures { result ≡ negative place operand operand.ctype }
{
    match operand.ctype {
        CType::Integer(integer) => Ok(Operand::value(place, CType::Integer(promote(integer)))),
        _ => Err(refused(Rule::Typing, operand.place)),
    }
}

/// An operator at a place in front of its operand.
pub fn prefixed(place: Place, operator: UnaryOperator, operand: Operand) -> Result<Operand, Refusal>
    ensures { result ≡ prefixed place operator (Ok operand) }
{
    match operator {
        UnaryOperator::Minus => negative(place, operand),
        UnaryOperator::Not => {
            let truth = Operand::value(place, CType::Integer(IntType::Bool));
            if_typed(!is_void(operand.ctype), operand.place, truth)
        }
    }
}

/// Whether a cast to a type takes an operand.
fn casts(ctype: CType, operand: Operand) -> bool
    ensures { result ≡ casts ctype operand.is_null operand.ctype }
{
    match ctype {
        CType::Integer(_) => is_integer(operand.ctype),
        _ => operand.is_null || is_address(operand.ctype),
    }
}

/// A cast at a place.
pub fn cast(place: Place, ctype: CType, operand: Operand) -> Result<Operand, Refusal>
    ensures { result ≡ cast place (Ok ctype) (Ok operand) }
{
    let taken = casts(ctype, operand);
    if_typed(taken, operand.place, Operand::value(place, ctype))
}

/// A choice at a place between two operands.
pub fn chosen(scope: &Scope, place: Place, yes: Operand, no: Operand) -> Result<Operand, Refusal>
    ensures { result ≡ chosen scope.now place yes no }
{
    let agree = comparable(scope, yes, no);
    let ctype = choice_type(yes.ctype, no.ctype);
    if_typed(agree, no.place, Operand::value(place, ctype))
}
