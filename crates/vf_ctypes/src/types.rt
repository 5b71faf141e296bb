//! Promotion, and the common type of two operands.

ghost use Rattle.std.specs.Prelude.{◌≡◌};
ghost use Rattle.vf_ctypes.specs.Types.{rank, is_signed, without_sign, holds_all, promoted, common_mixed, common_promoted, common_type};

use crate::ranges::{greatest, least};
use vf_base::IntType;

/// The rank of a type (C11 6.3.1.1).
fn rank(of: IntType) -> u8
    ensures { result ≡ rank of }
{
    match of {
        IntType::Bool => 0,
        IntType::Char | IntType::UChar => 1,
        IntType::Short | IntType::UShort => 2,
        IntType::Int | IntType::UInt => 3,
        IntType::Long | IntType::ULong => 4,
        IntType::LongLong | IntType::ULongLong => 5,
    }
}

/// Whether a type has negative numbers.
fn is_signed(of: IntType) -> bool
    ensures { result ≡ is_signed of }
{
    match of {
        IntType::Char | IntType::Short | IntType::Int | IntType::Long | IntType::LongLong => true,
        _ => false,
    }
}

/// The type without a sign of a type's rank.
fn without_sign(of: IntType) -> IntType
    ensures { result ≡ without_sign of }
{
    match of {
        IntType::Char => IntType::UChar,
        IntType::Short => IntType::UShort,
        IntType::Int => IntType::UInt,
        IntType::Long => IntType::ULong,
        IntType::LongLong => IntType::ULongLong,
        other => other,
    }
}

/// Whether each number of the second type is one of the first.
fn holds_all(first: IntType, second: IntType) -> bool
    ensures { result ≡ holds_all first second }
{
    least(first) <= least(second) && greatest(second) <= greatest(first)
}

/// The type that an operand of a type is promoted to (C11 6.3.1.1).
pub fn promote(of: IntType) -> IntType
    ensures { result ≡ promoted of }
{
    if rank(of) < rank(IntType::Int) {
        IntType::Int
    } else {
        of
    }
}

/// The common type of a type with a sign and one without.
fn common_mixed(signed: IntType, unsigned: IntType) -> IntType
    ensures { result ≡ common_mixed signed unsigned }
{
    if rank(signed) <= rank(unsigned) {
        unsigned
    } else if holds_all(signed, unsigned) {
        signed
    } else {
        without_sign(signed)
    }
}

/// The common type of two types that promotion leaves.
fn common_promoted(first: IntType, second: IntType) -> IntType
    ensures { result ≡ common_promoted first second }
{
    match (is_signed(first), is_signed(second)) {
        (true, false) => common_mixed(first, second),
        (false, true) => common_mixed(second, first),
        _ => {
            if rank(first) < rank(second) {
                second
            } else {
                first
            }
        }
    }
}

/// The common type of two operands (C11 6.3.1.8).
pub fn common(first: IntType, second: IntType) -> IntType
    ensures { result ≡ common_type first second }
{
    common_promoted(promote(first), promote(second))
}
