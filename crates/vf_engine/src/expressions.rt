//! Expressions over the locals of a frame.

ghost use Rattle.std.specs.Prelude.{◌≡◌, List, slice_get};
ghost use Rattle.vf_tree.specs.Core.{Identity};
ghost use Rattle.vf_model.specs.Evaluation.{evaluate, local_read};
ghost use Rattle.vf_core.specs.Shown.{expression_of};
ghost use Rattle.vf_engine.specs.Values.{cells_of};
ghost use Rattle.vf_engine.specs.Evaluated.{evaluated};

use crate::integers::{computed, ranged};
use crate::value::{Value, number_of};
use vf_base::Place;
use vf_core::Expression;
use vf_model::FaultKind;

/// A fault that a step meets, and where.
#[derive(Clone, Copy, Debug, PartialEq, Eq)]
pub struct Trouble {
    pub kind: FaultKind,
    pub place: Place,
}

/// The value of an expression over the locals, or the first fault.
pub fn evaluate(locals: &[Option<Value>], expression: &Expression) -> Result<Value, Trouble>
    ensures { (names : List Identity) → evaluated names result ≡ evaluate (cells_of names locals.now) (expression_of names expression.now) }
{
    match expression {
        Expression::Read { local, place } => read_local(locals, *local, *place),
        Expression::Number(number) => Ok(Value::Number(*number)),
        Expression::Truth(truth) => Ok(Value::Truth(*truth)),
        Expression::Null => Ok(Value::Null),
        Expression::Function(name) => Ok(Value::Function(*name)),
        Expression::Negate { of, value, place } => {
            let value = evaluate(locals, value)?;
            ranged(*of, *place, number_of(value).checked_neg())
        }
        Expression::Arithmetic {
            operator,
            of,
            left,
            right,
            place,
        } => {
            let left = evaluate(locals, left)?;
            let right = evaluate(locals, right)?;
            computed(*operator, *of, *place, number_of(left), number_of(right))
        }
        Expression::Convert { to, value, place } => {
            let value = evaluate(locals, value)?;
            ranged(*to, *place, Some(number_of(value)))
        }
    }
}

/// The value that a local holds.
fn read_local(locals: &[Option<Value>], local: u32, place: Place) -> Result<Value, Trouble>
    ensures { (names : List Identity) → evaluated names result ≡ local_read (slice_get (cells_of names locals.now) local) place }
{
    match locals.get(local as usize).copied() {
        Some(Some(value)) => Ok(value),
        _ => Err(Trouble {
            kind: FaultKind::Unset,
            place,
        }),
    }
}
