//! Statements without their semicolon: assignments and calls.

use crate::expr::Expr;
use crate::operator::{AssignmentOperator, StepOperator};
use crate::written::{CType, Name};
use vf_base::Place;

/// An assignment or a call.
#[derive(Drop)]
pub enum Simple {
    /// `x = e` and its like: the left side, the operator with its place, and the right side.
    Assignment(Expr, AssignmentOperator, Place, Expr),
    /// `x++` or `x--`, with the operator's place.
    StepAfter(Expr, StepOperator, Place),
    /// `++x` or `--x`, with the operator's place.
    StepBefore(Place, StepOperator, Expr),
    /// A call.
    Call(Expr),
}

/// What stands first in a `for`.
#[derive(Drop)]
pub enum First {
    /// `type x = e`
    Declaration(CType, Name, Expr),
    /// An assignment or a call.
    Simple(Simple),
}
