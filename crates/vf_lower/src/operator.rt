//! What operators are in the core, and the types of their operands.

ghost use Rattle.std.specs.Prelude.{◌≡◌};
ghost use Rattle.vf_declared.specs.declared.ctype.CType.TheVariants as types;
ghost use Rattle.vf_typing.specs.Types.{is_arithmetic, is_int_pointer, is_void, result_type, sum_type};
ghost use Rattle.vf_lower.specs.Operands.{arithmetic_operator, compared_type, comparison_of};

use vf_base::IntType;
use vf_core::{Comparison, Operator};
use vf_ctypes::common;
use vf_declared::ctype::CType;
use vf_syntax::operator::BinaryOperator;

/// The arithmetic operator that is written so.
pub fn arithmetic_operator(operator: BinaryOperator) -> Operator
    ensures { result ≡ arithmetic_operator operator }
{
    match operator {
        BinaryOperator::Times => Operator::Multiply,
        BinaryOperator::Divide => Operator::Divide,
        BinaryOperator::Remainder => Operator::Remainder,
        BinaryOperator::Minus => Operator::Subtract,
        _ => Operator::Add,
    }
}

/// The comparison that is written so.
pub fn comparison_of(operator: BinaryOperator) -> Comparison
    ensures { result ≡ comparison_of operator }
{
    match operator {
        BinaryOperator::Less => Comparison::Less,
        BinaryOperator::LessOrEqual => Comparison::LessEqual,
        BinaryOperator::Greater => Comparison::Greater,
        BinaryOperator::GreaterOrEqual => Comparison::GreaterEqual,
        BinaryOperator::NotEqual => Comparison::NotEqual,
        _ => Comparison::Equal,
    }
}

/// The type of which an operand of the first type is compared with one of the second.
pub fn compared_type(first: CType, second: CType) -> CType
    ensures { result ≡ compared_type first second }
{
    match (first, second) {
        (CType::Integer(one), CType::Integer(other)) => CType::Integer(common(one, other)),
        (CType::Integer(_), _) => second,
        _ => first,
    }
}

/// Whether it is `int *`.
pub fn is_int_pointer(of: CType) -> bool
    ensures { result ≡ is_int_pointer of }
{
    match of {
        CType::IntPointer => true,
        _ => false,
    }
}

/// Whether it is `void`.
pub fn is_void(of: CType) -> bool
    ensures { result ≡ is_void of }
{
    match of {
        CType::Void => true,
        _ => false,
    }
}

/// The type of a sum and its like.
fn sum_type(left: CType, right: CType) -> CType
    ensures { result ≡ sum_type left right }
{
    match (left, right) {
        (CType::Integer(one), CType::Integer(other)) => CType::Integer(common(one, other)),
        _ => left,
    }
}

/// The type of what an operator makes of two operands.
pub fn result_type(operator: BinaryOperator, left: CType, right: CType) -> CType
    ensures { result ≡ result_type operator left right }
{
    match operator {
        BinaryOperator::Times
        | BinaryOperator::Divide
        | BinaryOperator::Remainder
        | BinaryOperator::Plus
        | BinaryOperator::Minus => sum_type(left, right),
        _ => CType::Integer(IntType::Bool),
    }
}

/// Whether an operator is one of arithmetic.
pub fn is_sum(operator: BinaryOperator) -> bool
    ensures { result ≡ is_arithmetic operator }
{
    match operator {
        BinaryOperator::Times
        | BinaryOperator::Divide
        | BinaryOperator::Remainder
        | BinaryOperator::Plus
        | BinaryOperator::Minus => true,
        _ => false,
    }
}
