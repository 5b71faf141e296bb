//! Operators.

ghost use Rattle.std.specs.Prelude.{◌≡◌};
ghost use Rattle.vf_sorting.specs.Operators.{is_equality, is_plus, moves, operand_sort, prefix_sort, result_sort};

use crate::kinds::{bool_sort, int_sort, is_pointer};
use std::alloc::Global;
use vf_sorts::Sort;
use vf_syntax::operator::{BinaryOperator, UnaryOperator};

/// The sort of the operand behind an operator, and of the whole.
pub fn prefix_sort(alloc: Global, operator: UnaryOperator) -> Sort
    ensures { result ≡ prefix_sort operator }
{
    match operator {
        UnaryOperator::Minus => int_sort(alloc),
        UnaryOperator::Not => bool_sort(alloc),
    }
}

/// Whether an operator is `==` or `!=`.
pub fn is_equality(operator: BinaryOperator) -> bool
    ensures { result ≡ is_equality operator }
{
    match operator {
        BinaryOperator::Equal | BinaryOperator::NotEqual => true,
        _ => false,
    }
}

/// Whether an operator is `+`.
fn is_plus(operator: BinaryOperator) -> bool
    ensures { result ≡ is_plus operator }
{
    match operator {
        BinaryOperator::Plus => true,
        _ => false,
    }
}

/// Whether an operator moves a left operand of a sort by its right operand.
pub fn moves(operator: BinaryOperator, left: &Sort) -> bool
    ensures { result ≡ moves operator left.now }
{
    is_plus(operator) && is_pointer(left)
}

/// The sort of both operands of an operator other than `==` and `!=`.
pub fn operand_sort(alloc: Global, operator: BinaryOperator) -> Sort
    ensures { result ≡ operand_sort operator }
{
    match operator {
        BinaryOperator::And | BinaryOperator::Or => bool_sort(alloc),
        _ => int_sort(alloc),
    }
}

/// The sort of what an operator makes of two operands.
pub fn result_sort(alloc: Global, operator: BinaryOperator) -> Sort
    ensures { result ≡ result_sort operator }
{
    match operator {
        BinaryOperator::Times
        | BinaryOperator::Divide
        | BinaryOperator::Remainder
        | BinaryOperator::Plus
        | BinaryOperator::Minus => int_sort(alloc),
        _ => bool_sort(alloc),
    }
}
