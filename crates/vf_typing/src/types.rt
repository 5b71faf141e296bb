//! Kinds of types, and what operators make of types.

ghost use Rattle.std.specs.Prelude.{◌≡◌};
ghost use Rattle.vf_typing.specs.Types.{as_pointer, choice_type, either_pointer, is_address, is_arithmetic, is_index, is_int, is_int_pointer, is_integer, is_void, is_void_pointer, result_type, same_pointer, sum_type};

use vf_base::IntType;
use vf_ctypes::common;
use vf_declared::ctype::CType;
use vf_syntax::operator::BinaryOperator;

/// Whether it is `void`.
pub fn is_void(of: CType) -> bool
    ensures { result ≡ is_void of }
{
    match of {
        CType::Void => true,
        _ => false,
    }
}

/// Whether it is an integer type, `bool` among them.
pub fn is_integer(of: CType) -> bool
    ensures { result ≡ is_integer of }
{
    match of {
        CType::Integer(_) => true,
        _ => false,
    }
}

/// Whether it is `int`.
pub fn is_int(of: CType) -> bool
    ensures { result ≡ is_int of }
{
    match of {
        CType::Integer(IntType::Int) => true,
        _ => false,
    }
}

/// Whether it is an integer type other than `bool`.
pub fn is_index(of: CType) -> bool
    ensures { result ≡ is_index of }
{
    match of {
        CType::Integer(IntType::Bool) => false,
        CType::Integer(_) => true,
        _ => false,
    }
}

/// Whether it is `void *`.
pub fn is_void_pointer(of: CType) -> bool
    ensures { result ≡ is_void_pointer of }
{
    match of {
        CType::VoidPointer => true,
        _ => false,
    }
}

/// Whether it is `int *`.
pub fn is_int_pointer(of: CType) -> bool
    ensures { result ≡ is_int_pointer of }
{
    match of {
        CType::IntPointer => true,
        _ => false,
    }
}

/// Whether it is a pointer type or that of a function's name.
pub fn is_address(of: CType) -> bool
    ensures { result ≡ is_address of }
{
    match of {
        CType::Void | CType::Integer(_) => false,
        _ => true,
    }
}

/// Whether two pointer types are the same, or one of them is `void *`.
pub fn same_pointer(first: CType, second: CType) -> bool
    ensures { result ≡ same_pointer first second }
{
    first.same(second) || is_void_pointer(first) || is_void_pointer(second)
}

/// The type of a pointer or of a function's name, used as a pointer.
fn as_pointer(of: CType) -> CType
    ensures { result ≡ as_pointer of }
{
    match of {
        CType::Function(_) => CType::VoidPointer,
        _ => of,
    }
}

/// The type of a choice between two pointers.
fn either_pointer(first: CType, second: CType) -> CType
    ensures { result ≡ either_pointer first second }
{
    if is_void_pointer(first) || is_void_pointer(second) {
        CType::VoidPointer
    } else {
        first
    }
}

/// The type of a choice between two values (C11 6.5.15).
pub fn choice_type(first: CType, second: CType) -> CType
    ensures { result ≡ choice_type first second }
{
    match (first, second) {
        (CType::Integer(one), CType::Integer(other)) => CType::Integer(common(one, other)),
        (CType::Integer(_), _) => as_pointer(second),
        (_, CType::Integer(_)) => as_pointer(first),
        (CType::Function(_), CType::Function(_)) => CType::VoidPointer,
        (CType::Function(_), _) => second,
        (_, CType::Function(_)) => first,
        _ => either_pointer(first, second),
    }
}

/// Whether the result of an operator is of the common type of its operands, and not a `bool`.
fn is_arithmetic(operator: BinaryOperator) -> bool
    ensures { result ≡ is_arithmetic operator }
{
    match operator {
        BinaryOperator::Times
        | BinaryOperator::Divide
        | BinaryOperator::Remainder
        | BinaryOperator::Plus
        | BinaryOperator::Minus => true,
        _ => false,
    }
}

/// The type of a sum and its like.
fn sum_type(left: CType, right: CType) -> CType
    ensures { result ≡ sum_type left right }
{
    match (left, right) {
        (CType::Integer(one), CType::Integer(other)) => CType::Integer(common(one, other)),
        _ => left,
    }
}

/// The type of what an operator makes of two operands.
pub fn result_type(operator: BinaryOperator, left: CType, right: CType) -> CType
    ensures { result ≡ result_type operator left right }
{
    if is_arithmetic(operator) {
        sum_type(left, right)
    } else {
        CType::Integer(IntType::Bool)
    }
}
