//! Values that a step computes.

ghost use Rattle.std.specs.Prelude.{◌≡◌, IfOk};
ghost use Rattle.vf_steps.specs.Shown.{value_of};

use std::alloc::Global;
use vf_base::{IntType, Memory, Place};
use vf_core::Operator;

/// A value that a step computes without an access to memory and without a call.
#[derive(Debug, Drop)]
pub enum Value {
    /// What a local holds, by its number among the locals of the body; the place is that of what is read.
    Read {
        local: usize,
        place: Place,
    },
    /// A number.
    Number(u64),
    /// A truth value.
    Truth(bool),
    /// The null pointer.
    Null,
    /// A pointer to a function, by its number.
    Function(usize),
    /// The number with the other sign, in a type; the place is the minus.
    Negate {
        of: IntType,
        value: Box<Value>,
        place: Place,
    },
    /// Two numbers of a type and an operator between them; the place is the operator.
    Arithmetic {
        operator: Operator,
        of: IntType,
        left: Box<Value>,
        right: Box<Value>,
        place: Place,
    },
    /// The same number in another type; the place is the first token of what is converted.
    Convert {
        from: IntType,
        to: IntType,
        value: Box<Value>,
        place: Place,
    },
}

impl Value {
    /// The same value again.
    pub fn copy(&self, alloc: Global) -> Result<Value, Memory>
        ensures { IfOk result (λ value. value_of value ≡ value_of self.now) }
    {
        Ok(match self {
            Value::Read { local, place } => Value::Read {
                local: *local,
                place: *place,
            },
            Value::Number(number) => Value::Number(*number),
            Value::Truth(truth) => Value::Truth(*truth),
            Value::Null => Value::Null,
            Value::Function(function) => Value::Function(*function),
            Value::Negate { of, value, place } => Value::Negate {
                of: *of,
                value: Box::new(alloc, value.copy(alloc)?)?,
                place: *place,
            },
            Value::Arithmetic {
                operator,
                of,
                left,
                right,
                place,
            } => Value::Arithmetic {
                operator: *operator,
                of: *of,
                left: Box::new(alloc, left.copy(alloc)?)?,
                right: Box::new(alloc, right.copy(alloc)?)?,
                place: *place,
            },
            Value::Convert {
                from,
                to,
                value,
                place,
            } => Value::Convert {
                from: *from,
                to: *to,
                value: Box::new(alloc, value.copy(alloc)?)?,
                place: *place,
            },
        })
    }
}
