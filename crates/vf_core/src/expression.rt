//! Expressions, which access no memory and call nothing.

use crate::words::{Name, Operator};
use vf_base::{IntType, Place};

/// An expression over the locals of a body. Arithmetic is done in its type.
#[derive(Debug, Drop)]
pub enum Expression {
    /// A local, by its number among the locals of the body; the place is its name.
    Read {
        local: u32,
        place: Place,
    },
    /// A number.
    Number(i128),
    /// A truth value.
    Truth(bool),
    /// The null pointer.
    Null,
    /// A pointer to a function.
    Function(Name),
    /// The number with the other sign; the place is the minus.
    Negate {
        of: IntType,
        value: Box<Expression>,
        place: Place,
    },
    /// Two numbers and an operator between them; the place is the operator.
    Arithmetic {
        operator: Operator,
        of: IntType,
        left: Box<Expression>,
        right: Box<Expression>,
        place: Place,
    },
    /// The same number in another type; the place is the first token of what is converted.
    Convert {
        to: IntType,
        value: Box<Expression>,
        place: Place,
    },
}
