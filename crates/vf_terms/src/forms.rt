//! Operators and forms of ghost expressions.

ghost use Rattle.std.specs.Prelude.{◌≡◌};
ghost use Rattle.vf_sorting.specs.Operators.{is_equality, is_null, moves, prefix_sort, result_sort};

use std::alloc::Global;
use vf_sorting::kinds::{bool_sort, int_sort, is_pointer};
use vf_sorts::Sort;
use vf_syntax::ghost_expr::{GhostExpr, GhostExprNode};
use vf_syntax::operator::{BinaryOperator, UnaryOperator};

/// Whether an expression is a `0`, in parentheses or not.
#[cycle(is_null)]
pub fn is_null(expr: &GhostExpr) -> bool
    ensures { result ≡ is_null expr.now }
{
    match &expr.node {
        GhostExprNode::Number(number, _) => *number == 0,
        GhostExprNode::Parenthesized(inner) => is_null(inner),
        _ => false,
    }
}

/// The sort of the operand behind an operator, and of the whole.
pub(crate) fn prefix_sort(alloc: Global, operator: UnaryOperator) -> Sort
    ensures { result ≡ prefix_sort operator }
{
    match operator {
        UnaryOperator::Minus => int_sort(alloc),
        UnaryOperator::Not => bool_sort(alloc),
    }
}

/// Whether an operator compares for equality.
pub(crate) fn is_equality(operator: BinaryOperator) -> bool
    ensures { result ≡ is_equality operator }
{
    match operator {
        BinaryOperator::Equal => true,
        BinaryOperator::NotEqual => true,
        _ => false,
    }
}

/// Whether an operator moves a left operand of a sort by its right operand.
pub(crate) fn moves(operator: BinaryOperator, left: &Sort) -> bool
    ensures { result ≡ moves operator left.now }
{
    match operator {
        BinaryOperator::Plus => is_pointer(left),
        _ => false,
    }
}

/// The sort of what an operator makes of two operands, none of which it moves.
pub(crate) fn result_sort(alloc: Global, operator: BinaryOperator) -> Sort
    ensures { result ≡ result_sort operator }
{
    match operator {
        BinaryOperator::Times => int_sort(alloc),
        BinaryOperator::Divide => int_sort(alloc),
        BinaryOperator::Remainder => int_sort(alloc),
        BinaryOperator::Plus => int_sort(alloc),
        BinaryOperator::Minus => int_sort(alloc),
        _ => bool_sort(alloc),
    }
}
