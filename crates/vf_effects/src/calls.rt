//! Calls and returns.

ghost use Rattle.std.specs.Prelude.{◌≡◌, ◌<◌, ℕ, List, [], Some, length, slice_get, IfOk, OnOk, OnErr};
ghost use Rattle.std.specs.Option.{option_map};
ghost use Rattle.vf_tree.specs.Core.{Identity, ProgramTree};
ghost use Rattle.vf_model.specs.State.{entered};
ghost use Rattle.vf_model.specs.Evaluation.{evaluate_all};
ghost use Rattle.vf_core.specs.Shown.{expressions_of, function_of, program_of};
ghost use Rattle.vf_model.specs.Calls.{returned_number};
ghost use Rattle.vf_engine.specs.Values.{value_of, cells_of};
ghost use Rattle.vf_engine.specs.States.{frame_of};
ghost use Rattle.vf_engine.specs.Effects.{values_or_none};
ghost use Rattle.vf_engine.specs.Happenings.{Happened};
ghost use Rattle.vf_engine.specs.declared.effect.Effect.TheVariants as effects;
ghost use Rattle.vf_engine.specs.declared.state.Frame as declared_frame;
ghost use Rattle.vf_engine.specs.declared.state.Thread as declared_thread;
ghost use Rattle.vf_effects.specs.Becoming.{StaysAs};

use std::alloc::Global;
use vf_base::{Memory, Sequence};
use vf_core::{Expression, Function, Program};
use vf_engine::{
    End, Frame, Running, Thread, Value, argument_values, enter_at, frame_of_call, leave_at,
    number_of,
};

/// The frame of a call that a thread makes.
fn called_frame(
    alloc: Global,
    caller: &Thread,
    number: usize,
    function: &Function,
    target: Option<u32>,
    arguments: &[Expression],
) -> Result<Frame, Memory>
    ensures { IfOk result (λ new. (names : List Identity) (frame : declared_frame.Frame) → caller.now.frame ≡ Some frame
        → frame_of names new ≡ entered number (function_of names function.now) (values_or_none (evaluate_all (cells_of names frame.locals.items) (expressions_of names arguments.now))) target) }
{
    let values = match &caller.frame {
        Some(frame) => argument_values(alloc, frame.locals.as_slice(), arguments)?,
        None => Vec::new(alloc),
    };
    frame_of_call(number, function, values, target)
}

/// Calls the program's function of a number.
pub fn enter(
    alloc: Global,
    program: &Program,
    running: &mut Running,
    thread: u32,
    number: usize,
    target: Option<u32>,
    arguments: &Sequence<Expression>,
    next: u32,
) -> Result<(), Memory>
    requires { thread < length running.old.threads.items }
    ensures happened { OnOk result ((grant : ℕ) → Happened program.now.unit.names (program_of program.now.unit) running.old thread grant (effects.Enter number target arguments.entry next) running.new) }
    ensures unchanged { OnErr result ((names : List Identity) → StaysAs names running.old running.new) }
{
    let Some(function) = program.unit.functions.get(number) else {
        return Ok(());
    };
    let caller = &running.threads[thread as usize];
    let new = called_frame(
        alloc,
        caller,
        number,
        function,
        target,
        arguments.as_slice(),
    )?;
    enter_at(&mut running.threads, thread as usize, new, next)
}

/// The number that main returns.
fn returned(value: Option<Value>) -> i128
    ensures { (names : List Identity) → result ≡ returned_number (option_map (value_of names) value) }
{
    match value {
        Some(value) => number_of(value),
        None => 0,
    }
}

/// Leaves the body.
pub fn leave(running: &mut Running, thread: u32, value: Option<Value>)
    requires { thread < length running.old.threads.items }
    ensures { (names : List Identity) (p : ProgramTree) (grant : ℕ) → Happened names p running.old thread grant (effects.Return value) running.new }
{
    let last = running.threads[thread as usize].callers.is_empty();
    leave_at(&mut running.threads, thread as usize, value);
    if last && thread == 0 {
        running.end = Some(End::Returned(returned(value)));
    }
}
