//! Values.

ghost use Rattle.std.specs.Prelude.{◌≡◌, List};
ghost use Rattle.vf_tree.specs.Core.{Identity};
ghost use Rattle.vf_model.specs.Values.{number_of, same_value, compares};
ghost use Rattle.vf_core.specs.Shown.{comparison_of};
ghost use Rattle.vf_engine.specs.Values.{value_of};

use vf_base::{Sequence, Text};
use vf_core::{Comparison, Name, same_name};

/// A value of C.
#[derive(Clone, Copy, Debug, PartialEq, Eq)]
pub enum Value {
    Number(i128),
    Truth(bool),
    Null,
    /// A block's number from 1, and an offset in cells.
    Pointer { block: u32, offset: usize },
    /// A function, by its name.
    Function(Name),
}

/// The number that a value is, and 0 for every other value.
pub fn number_of(value: Value) -> i128
    ensures { (names : List Identity) → result ≡ number_of (value_of names value) }
{
    match value {
        Value::Number(number) => number,
        Value::Truth(_) | Value::Null | Value::Pointer { .. } | Value::Function(_) => 0,
    }
}

/// Whether two values are one (C11 6.5.9).
pub fn same_value(names: &Sequence<Text>, first: Value, second: Value) -> bool
    ensures { result ≡ same_value (value_of names.now first) (value_of names.now second) }
{
    match first {
        Value::Number(number) => match second {
            Value::Number(other) => number == other,
            _ => false,
        },
        Value::Truth(truth) => match second {
            Value::Truth(other) => truth == other,
            _ => false,
        },
        Value::Null => match second {
            Value::Null => true,
            _ => false,
        },
        Value::Pointer { block, offset } => match second {
            Value::Pointer {
                block: other,
                offset: at,
            } => block == other && offset == at,
            _ => false,
        },
        Value::Function(name) => match second {
            Value::Function(other) => same_name(names, name, other),
            _ => false,
        },
    }
}

/// What a comparison says of two values (C11 6.5.8, 6.5.9).
pub fn compares(names: &Sequence<Text>, comparison: Comparison, first: Value, second: Value) -> bool
    ensures { result ≡ compares (comparison_of comparison) (value_of names.now first) (value_of names.now second) }
{
    match comparison {
        Comparison::Equal => same_value(names, first, second),
        Comparison::NotEqual => !same_value(names, first, second),
        Comparison::Less => number_of(first) < number_of(second),
        Comparison::LessEqual => number_of(first) <= number_of(second),
        Comparison::Greater => number_of(second) < number_of(first),
        Comparison::GreaterEqual => number_of(second) <= number_of(first),
    }
}
