//! What integer types range over.

ghost use Rattle.std.specs.Prelude.{◌≡◌, ◌≤ℤ◌, pos, neg_ℤ, ◌^◌};
ghost use Rattle.vf_model.specs.Integers.{least, greatest, in_range};
ghost use Rattle.vf_ctypes.specs.Types.{converted};

use vf_base::IntType;

/// The least number of a type (C11 6.2.5, 5.2.4.2.1).
pub fn least(of: IntType) -> i128
    ensures { result ≡ least of }
{
    match of {
        IntType::Bool => 0,
        IntType::Char => -128,
        IntType::UChar => 0,
        IntType::Short => -32_768,
        IntType::UShort => 0,
        IntType::Int => -2_147_483_648,
        IntType::UInt => 0,
        IntType::Long => -9_223_372_036_854_775_808,
        IntType::ULong => 0,
        IntType::LongLong => -9_223_372_036_854_775_808,
        IntType::ULongLong => 0,
    }
}

/// The greatest number of a type.
pub fn greatest(of: IntType) -> i128
    ensures { result ≡ greatest of }
{
    match of {
        IntType::Bool => 1,
        IntType::Char => 127,
        IntType::UChar => 255,
        IntType::Short => 32_767,
        IntType::UShort => 65_535,
        IntType::Int => 2_147_483_647,
        IntType::UInt => 4_294_967_295,
        IntType::Long => 9_223_372_036_854_775_807,
        IntType::ULong => 18_446_744_073_709_551_615,
        IntType::LongLong => 9_223_372_036_854_775_807,
        IntType::ULongLong => 18_446_744_073_709_551_615,
    }
}

/// Whether a number is one of a type's.
pub fn in_range(of: IntType, number: i128) -> bool
    ensures { result ≡ in_range of number }
{
    least(of) <= number && number <= greatest(of)
}

/// A number converted to a type (C11 6.3.1.2, 6.3.1.3): to `bool`, 1 where it is not 0; to another type,
/// itself where it is one of its numbers, else nothing.
pub fn convert(to: IntType, number: i128) -> Option<i128>
    ensures { result ≡ converted to number }
{
    if to == IntType::Bool {
        return Some(if number == 0 { 0 } else { 1 });
    }
    if in_range(to, number) {
        Some(number)
    } else {
        None
    }
}
