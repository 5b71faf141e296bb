//! Integer types: their ranges and their arithmetic.

ghost use Rattle.std.specs.Prelude.{◌≡◌, List, false, pos, int_div, int_rem};
ghost use Rattle.vf_model.specs.declared.words.FaultKind.TheVariants as faults;
ghost use Rattle.vf_tree.specs.Core.{Identity};
ghost use Rattle.vf_model.specs.Integers.{least, greatest, in_range, bad_divisor};
ghost use Rattle.vf_model.specs.Evaluation.{ranged, computed};
ghost use Rattle.vf_core.specs.Shown.{operator_of};
ghost use Rattle.vf_engine.specs.Evaluated.{evaluated, ranged_or_fault};

use crate::expressions::Trouble;
use crate::value::Value;
use vf_base::{IntType, Place};
use vf_core::Operator;
use vf_model::FaultKind;

/// The least number of a type.
fn least(of: IntType) -> i128
    ensures { result ≡ least of }
{
    match of {
        IntType::Bool => 0,
        IntType::Char => -128,
        IntType::UChar => 0,
        IntType::Short => -32_768,
        IntType::UShort => 0,
        IntType::Int => -2_147_483_648,
        IntType::UInt => 0,
        IntType::Long => -9_223_372_036_854_775_808,
        IntType::ULong => 0,
        IntType::LongLong => -9_223_372_036_854_775_808,
        IntType::ULongLong => 0,
    }
}

/// The greatest number of a type.
fn greatest(of: IntType) -> i128
    ensures { result ≡ greatest of }
{
    match of {
        IntType::Bool => 1,
        IntType::Char => 127,
        IntType::UChar => 255,
        IntType::Short => 32_767,
        IntType::UShort => 65_535,
        IntType::Int => 2_147_483_647,
        IntType::UInt => 4_294_967_295,
        IntType::Long => 9_223_372_036_854_775_807,
        IntType::ULong => 18_446_744_073_709_551_615,
        IntType::LongLong => 9_223_372_036_854_775_807,
        IntType::ULongLong => 18_446_744_073_709_551_615,
    }
}

/// Whether a number is one of the type's.
fn is_in_range(of: IntType, number: i128) -> bool
    ensures { result ≡ in_range of number }
{
    least(of) <= number && number <= greatest(of)
}

/// The number, where it is one of the type's.
pub fn ranged(of: IntType, place: Place, number: Option<i128>) -> Result<Value, Trouble>
    ensures { (names : List Identity) → evaluated names result ≡ ranged_or_fault of place number }
{
    match number {
        Some(number) if is_in_range(of, number) => Ok(Value::Number(number)),
        _ => Err(Trouble {
            kind: FaultKind::Range,
            place,
        }),
    }
}

/// Whether a division by the number has no value.
fn is_bad_divisor(of: IntType, left: i128, right: i128) -> bool
    ensures value { result ≡ bad_divisor of left right }
    ensures zero { result ≡ false → right ≡ pos 0 → ⊥ }
{
    right == 0 || right == -1 && left == least(of)
}

/// A quotient, truncated toward 0 (C11 6.5.5).
fn quotient(of: IntType, place: Place, left: i128, right: i128) -> Result<Value, Trouble>
    requires { right ≡ pos 0 → ⊥ }
    ensures { (names : List Identity) → evaluated names result ≡ ranged of place (int_div left right) }
{
    ranged(of, place, left.checked_div(right))
}

/// The remainder of that.
fn remainder(of: IntType, place: Place, left: i128, right: i128) -> Result<Value, Trouble>
    requires { right ≡ pos 0 → ⊥ }
    ensures { (names : List Identity) → evaluated names result ≡ ranged of place (int_rem left right) }
{
    if right == -1 {
        return ranged(of, place, Some(0));
    }
    ranged(of, place, left.checked_rem(right))
}

/// What an operator makes of two numbers.
pub fn computed(
    operator: Operator,
    of: IntType,
    place: Place,
    left: i128,
    right: i128,
) -> Result<Value, Trouble>
    ensures { (names : List Identity) → evaluated names result ≡ computed (operator_of operator) of place left right }
{
    match operator {
        Operator::Add => ranged(of, place, left.checked_add(right)),
        Operator::Subtract => ranged(of, place, left.checked_sub(right)),
        Operator::Multiply => ranged(of, place, left.checked_mul(right)),
        Operator::Divide => {
            if is_bad_divisor(of, left, right) {
                return Err(bad_divisor(place));
            }
            quotient(of, place, left, right)
        }
        Operator::Remainder => {
            if is_bad_divisor(of, left, right) {
                return Err(bad_divisor(place));
            }
            remainder(of, place, left, right)
        }
    }
}

/// The fault of a division that has no value.
fn bad_divisor(place: Place) -> Trouble
    ensures { result ≡ record { kind = faults.Divisor; place = place } }
{
    Trouble {
        kind: FaultKind::Divisor,
        place,
    }
}
