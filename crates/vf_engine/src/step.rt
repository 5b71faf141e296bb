//! The next step of a thread: what each core step does.

ghost use Rattle.std.specs.Prelude.{◌≡◌, List, slice_get};
ghost use Rattle.vf_model.specs.State as model;
ghost use Rattle.vf_model.specs.Steps.{act_of, act_in};
ghost use Rattle.vf_core.specs.Shown.{step_of, program_of};
ghost use Rattle.vf_engine.specs.States.{turn_of};
ghost use Rattle.vf_engine.specs.Effects.{act_of_result};

use crate::access::{allocate_ints, free_ints, free_struct, load, offset, store, trouble};
use crate::calls::{arguments, call, call_pointer};
use crate::cell::{element_cell, field_cell};
use crate::effect::Effect;
use crate::expressions::{Trouble, evaluate};
use crate::state::{Frame, Running};
use crate::value::{compares, number_of};
use vf_core::{CoreStep, Program};
use vf_model::FaultKind;

/// What a core step does in a frame.
fn effect_of_step<'a>(
    program: &'a Program,
    running: &Running,
    thread: u32,
    frame: &Frame,
    step: &'a CoreStep,
) -> Result<Effect<'a>, Trouble>
    ensures { (callers : List model.Frame) → act_of (program_of program.now.unit) (turn_of program.now.unit.names running.now thread frame.now callers) (step_of program.now.unit.names step.now)
        ≡ act_of_result program.now.unit.names (program_of program.now.unit) (turn_of program.now.unit.names running.now thread frame.now callers) result }
{
    let names = &program.unit.names;
    let blocks = &running.blocks;
    let locals = frame.locals.as_slice();
    match step {
        CoreStep::Set { local, value, next } => {
            let value = evaluate(locals, value)?;
            Ok(Effect::Set {
                local: *local,
                value,
                next: *next,
            })
        }
        CoreStep::Load {
            local,
            pointer,
            field,
            place,
            next,
        } => {
            let pointer = evaluate(locals, pointer)?;
            load(
                blocks,
                *local,
                *place,
                *next,
                field_cell(names, blocks, pointer, *field),
            )
        }
        CoreStep::Store {
            pointer,
            field,
            value,
            place,
            next,
        } => {
            let pointer = evaluate(locals, pointer)?;
            let value = evaluate(locals, value)?;
            store(
                value,
                *place,
                *next,
                field_cell(names, blocks, pointer, *field),
            )
        }
        CoreStep::Allocate {
            local,
            structure,
            next,
        } => Ok(Effect::Allocate {
            local: *local,
            structure: *structure,
            next: *next,
        }),
        CoreStep::Free {
            pointer,
            structure,
            place,
            next,
        } => {
            let pointer = evaluate(locals, pointer)?;
            free_struct(names, blocks, pointer, *structure, *place, *next)
        }
        CoreStep::Offset {
            local,
            pointer,
            by,
            place,
            next,
        } => {
            let pointer = evaluate(locals, pointer)?;
            let by = evaluate(locals, by)?;
            offset(blocks, *local, pointer, number_of(by), *place, *next)
        }
        CoreStep::LoadAt {
            local,
            pointer,
            index,
            place,
            next,
        } => {
            let pointer = evaluate(locals, pointer)?;
            let index = evaluate(locals, index)?;
            load(
                blocks,
                *local,
                *place,
                *next,
                element_cell(blocks, pointer, number_of(index)),
            )
        }
        CoreStep::StoreAt {
            pointer,
            index,
            value,
            place,
            next,
        } => {
            let pointer = evaluate(locals, pointer)?;
            let index = evaluate(locals, index)?;
            let value = evaluate(locals, value)?;
            store(
                value,
                *place,
                *next,
                element_cell(blocks, pointer, number_of(index)),
            )
        }
        CoreStep::AllocateInts {
            local,
            length,
            place,
            next,
        } => {
            let length = evaluate(locals, length)?;
            allocate_ints(*local, number_of(length), *place, *next)
        }
        CoreStep::FreeInts {
            pointer,
            place,
            next,
        } => {
            let pointer = evaluate(locals, pointer)?;
            free_ints(blocks, pointer, *place, *next)
        }
        CoreStep::Call {
            target,
            function,
            arguments: given,
            place,
            next,
        } => {
            match arguments(locals, given.as_slice()) {
                Ok((first, second)) => call(
                    program, running, thread, *target, *function, given, first, second, *place,
                    *next,
                ),
                Err(fault) => Err(fault),
            }
        }
        CoreStep::CallPointer {
            target,
            pointer,
            signature,
            arguments: given,
            place,
            next,
        } => {
            let pointer = evaluate(locals, pointer)?;
            match arguments(locals, given.as_slice()) {
                Ok((first, second)) => call_pointer(
                    program, running, thread, *target, pointer, signature, given, first, second,
                    *place, *next,
                ),
                Err(fault) => Err(fault),
            }
        }
        CoreStep::If {
            comparison,
            left,
            right,
            so,
            otherwise,
        } => {
            let left = evaluate(locals, left)?;
            let right = evaluate(locals, right)?;
            if compares(names, *comparison, left, right) {
                Ok(Effect::Goto { next: *so })
            } else {
                Ok(Effect::Goto { next: *otherwise })
            }
        }
        CoreStep::Return { value } => match value {
            None => Ok(Effect::Return(None)),
            Some(value) => {
                let value = evaluate(locals, value)?;
                Ok(Effect::Return(Some(value)))
            }
        },
    }
}

/// What the next step of a thread does, whose innermost frame is given.
pub fn effect_in<'a>(
    program: &'a Program,
    running: &Running,
    thread: u32,
    frame: &Frame,
) -> Result<Effect<'a>, Trouble>
    ensures { (callers : List model.Frame) → act_in (program_of program.now.unit) (turn_of program.now.unit.names running.now thread frame.now callers) (slice_get (program_of program.now.unit).functions frame.now.function)
        ≡ act_of_result program.now.unit.names (program_of program.now.unit) (turn_of program.now.unit.names running.now thread frame.now callers) result }
{
    match program.unit.functions.get(frame.function) {
        None => Ok(Effect::Wait),
        Some(function) => match function.steps.get(frame.step as usize) {
            None => trouble(FaultKind::NoReturn, function.closing),
            Some(step) => effect_of_step(program, running, thread, frame, step),
        },
    }
}
