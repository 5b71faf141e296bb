//! Frames of calls.

ghost use Rattle.std.specs.Prelude.{◌≡◌, ◌++◌, ◌-◌, List, map, Some, None, length, replicate, IfOk};
ghost use Rattle.vf_tree.specs.Core.{Identity};
ghost use Rattle.vf_model.specs.Values as model;
ghost use Rattle.vf_model.specs.State.{entered};
ghost use Rattle.vf_model.specs.Evaluation.{evaluate_all};
ghost use Rattle.vf_core.specs.Shown.{expressions_of, function_of};
ghost use Rattle.vf_engine.specs.Values.{cells_of};
ghost use Rattle.vf_engine.specs.States.{frame_of};
ghost use Rattle.vf_engine.specs.Effects.{values_or_none};

use crate::expressions::evaluate;
use crate::state::Frame;
use crate::value::Value;
use std::alloc::Global;
use vf_base::Memory;
use vf_core::{Expression, Function};

/// The values of arguments, and none where one has a fault.
pub fn argument_values(
    alloc: Global,
    locals: &[Option<Value>],
    arguments: &[Expression],
) -> Result<Vec<Option<Value>>, Memory>
    ensures { IfOk result (λ vs. (names : List Identity) → cells_of names vs.items ≡ map Some (values_or_none (evaluate_all (cells_of names locals.now) (expressions_of names arguments.now)))) }
{
    let mut values = Vec::new(alloc);
    for argument in arguments {
        match evaluate(locals, argument) {
            Ok(value) => values.push(Some(value))?,
            Err(_) => return Ok(Vec::new(alloc)),
        }
    }
    Ok(values)
}

/// The values, and then unset locals up to that many.
fn unset_after(values: Vec<Option<Value>>, count: usize) -> Result<Vec<Option<Value>>, Memory>
    ensures { IfOk result (λ vs. vs.items ≡ values.items ++ replicate (count - length values.items) None) }
{
    let mut locals = values;
    let missing = count.saturating_sub(locals.len());
    for _i in 0..missing {
        locals.push(None)?;
    }
    Ok(locals)
}

/// A frame of a call, its other locals unset, before the first step.
pub fn frame_of_call(
    number: usize,
    function: &Function,
    values: Vec<Option<Value>>,
    target: Option<u32>,
) -> Result<Frame, Memory>
    ensures { IfOk result (λ frame. (names : List Identity) (vs : List model.Value) → cells_of names values.items ≡ map Some vs
        → frame_of names frame ≡ entered number (function_of names function.now) vs target) }
{
    let locals = unset_after(values, function.locals.len())?;
    Ok(Frame {
        function: number,
        step: 0,
        locals,
        target,
    })
}
