//! Calls.

ghost use Rattle.std.specs.Prelude.{◌≡◌, List, map, slice_get, IfSome, IsSome};
ghost use Rattle.vf_tree.specs.Core.{Identity, ProgramTree};
ghost use Rattle.vf_model.specs.Memory.{pointed_at, block_number};
ghost use Rattle.vf_model.specs.State.{Turn};
ghost use Rattle.vf_model.specs.Evaluation.{evaluate_all};
ghost use Rattle.vf_model.specs.PreludeFunctions.{prelude_named};
ghost use Rattle.vf_model.specs.Steps.{all_values};
ghost use Rattle.vf_model.specs.Values as model;
ghost use Rattle.vf_model.specs.Calls.{argument, acquires, releases, disposes, joins, has_ended, run_of, has_signature, byte_of, starts, starts_joinable, calls_prelude, calls, calls_pointer};
ghost use Rattle.vf_core.specs.Shown.{identity_of, expressions_of, signature_of, prelude_of, program_of};
ghost use Rattle.vf_engine.specs.Values.{value_of, cells_of};
ghost use Rattle.vf_engine.specs.Memories.{memory_of};
ghost use Rattle.vf_engine.specs.States.{thread_of};
ghost use Rattle.vf_engine.specs.Effects.{act_of_result, values_or_none};
ghost use Rattle.vf_engine.specs.Calls.{AreFirstTwo, found_in};

use crate::access::trouble;
use crate::blocks::{Block, Blocks};
use crate::effect::Effect;
use crate::expressions::{Trouble, evaluate};
use crate::signature::{has_prelude_signature, is_run_signature, same_signature};
use crate::state::{Running, Thread};
use crate::value::{Value, number_of};
use vf_base::{Place, Sequence, Text};
use vf_core::{Expression, Name, PreludeFunction, Program, Signature, resolved};
use vf_model::FaultKind;

/// The first two of the arguments' values, null for each that there is none; or the first fault of all.
pub fn arguments(
    locals: &[Option<Value>],
    expressions: &[Expression],
) -> Result<(Value, Value), Trouble>
    ensures { (names : List Identity) → AreFirstTwo names (evaluate_all (cells_of names locals.now) (expressions_of names expressions.now)) result }
{
    match expressions {
        [] => Ok((Value::Null, Value::Null)),
        [one, more @ ..] => {
            let first = evaluate(locals, one)?;
            match arguments(locals, more) {
                Ok((second, _)) => Ok((first, second)),
                Err(fault) => Err(fault),
            }
        }
    }
}

/// The block that a value points into, and 0 where it is no pointer.
fn block_number(pointer: Value) -> u32
    ensures { (names : List Identity) → result ≡ block_number (value_of names pointer) }
{
    match pointer {
        Value::Pointer { block, .. } => block,
        _ => 0,
    }
}

/// Acquires a mutex.
fn acquire<'a>(
    names: &Sequence<Text>,
    blocks: &Blocks,
    pointer: Value,
    place: Place,
    next: u32,
) -> Result<Effect<'a>, Trouble>
    ensures { (p : ProgramTree) (turn : Turn) → turn.state.memory ≡ memory_of names.now blocks.now
        → acquires turn (value_of names.now pointer) place next (pointed_at (memory_of names.now blocks.now) (value_of names.now pointer)) ≡ act_of_result names.now p turn result }
{
    let block = block_number(pointer);
    match blocks.pointed_at(pointer) {
        Some(Block::Mutex(None)) => Ok(Effect::Acquire { block, next }),
        Some(Block::Mutex(Some(_))) => Ok(Effect::Wait),
        _ => trouble(FaultKind::Mutex, place),
    }
}

/// Releases a mutex.
fn release<'a>(
    names: &Sequence<Text>,
    blocks: &Blocks,
    thread: u32,
    pointer: Value,
    place: Place,
    next: u32,
) -> Result<Effect<'a>, Trouble>
    ensures { (p : ProgramTree) (turn : Turn) → turn.state.memory ≡ memory_of names.now blocks.now → turn.thread ≡ thread
        → releases turn (value_of names.now pointer) place next (pointed_at (memory_of names.now blocks.now) (value_of names.now pointer)) ≡ act_of_result names.now p turn result }
{
    let block = block_number(pointer);
    match blocks.pointed_at(pointer) {
        Some(Block::Mutex(Some(holder))) => {
            if *holder == thread {
                Ok(Effect::Release { block, next })
            } else {
                trouble(FaultKind::Mutex, place)
            }
        }
        _ => trouble(FaultKind::Mutex, place),
    }
}

/// Disposes a mutex.
fn dispose<'a>(
    names: &Sequence<Text>,
    blocks: &Blocks,
    pointer: Value,
    place: Place,
    next: u32,
) -> Result<Effect<'a>, Trouble>
    ensures { (p : ProgramTree) (turn : Turn) → turn.state.memory ≡ memory_of names.now blocks.now
        → disposes turn (value_of names.now pointer) place next (pointed_at (memory_of names.now blocks.now) (value_of names.now pointer)) ≡ act_of_result names.now p turn result }
{
    let block = block_number(pointer);
    match blocks.pointed_at(pointer) {
        Some(Block::Mutex(None)) => Ok(Effect::Remove { block, next }),
        _ => trouble(FaultKind::Mutex, place),
    }
}

/// Whether a thread was started and has ended.
fn has_ended(threads: &[Thread], thread: u32) -> bool
    ensures { (names : List Identity) → result ≡ has_ended (slice_get (map (thread_of names) threads.now) thread) }
{
    match threads.get(thread as usize) {
        Some(
            Thread {
                frame: None,
                callers: _,
            },
        ) => true,
        _ => false,
    }
}

/// Joins a thread.
fn join<'a>(
    names: &Sequence<Text>,
    blocks: &Blocks,
    threads: &[Thread],
    pointer: Value,
    place: Place,
    next: u32,
) -> Result<Effect<'a>, Trouble>
    ensures { (p : ProgramTree) (turn : Turn) → turn.state.memory ≡ memory_of names.now blocks.now → turn.state.threads ≡ map (thread_of names.now) threads.now
        → joins turn (value_of names.now pointer) place next (pointed_at (memory_of names.now blocks.now) (value_of names.now pointer)) ≡ act_of_result names.now p turn result }
{
    let block = block_number(pointer);
    match blocks.pointed_at(pointer) {
        Some(Block::Handle { thread, .. }) => {
            if has_ended(threads, *thread) {
                Ok(Effect::Remove { block, next })
            } else {
                Ok(Effect::Wait)
            }
        }
        _ => trouble(FaultKind::Join, place),
    }
}

/// The number of the function that a thread can be started in.
fn run_of(program: &Program, value: Value) -> Option<usize>
    ensures there { IfSome result (λ number. IsSome (slice_get program.now.unit.functions number)) }
    ensures found { run_of (program_of program.now.unit) (value_of program.now.unit.names value) ≡ found_in (program_of program.now.unit) result }
{
    let Value::Function(name) = value else {
        return None;
    };
    let number = resolved(program, name).body?;
    let function = program.unit.functions.get(number)?;
    if is_run_signature(&program.unit.names, &function.signature) {
        Some(number)
    } else {
        None
    }
}

/// Whether a function of that name, the prelude's or with a body, has the signature.
fn has_signature(program: &Program, name: Name, want: &Signature) -> bool
    ensures { result ≡ has_signature (program_of program.now.unit) (identity_of program.now.unit.names name) (signature_of program.now.unit.names want.now) (prelude_named (identity_of program.now.unit.names name)) }
{
    let names = &program.unit.names;
    let found = resolved(program, name);
    match found.prelude {
        Some(function) => has_prelude_signature(names, function, want),
        None => match found.body {
            Some(number) => match program.unit.functions.get(number) {
                Some(function) => same_signature(names, &function.signature, want),
                None => false,
            },
            None => false,
        },
    }
}

/// Starts a thread.
fn start<'a>(
    program: &Program,
    run: Value,
    argument: Value,
    place: Place,
    next: u32,
) -> Result<Effect<'a>, Trouble>
    ensures { (turn : Turn) → starts turn (value_of program.now.unit.names argument) place next (run_of (program_of program.now.unit) (value_of program.now.unit.names run)) ≡ act_of_result program.now.unit.names (program_of program.now.unit) turn result }
{
    match run_of(program, run) {
        Some(run) => Ok(Effect::Start {
            run,
            argument,
            next,
        }),
        None => trouble(FaultKind::Pointer, place),
    }
}

/// Starts a thread that can be joined.
fn start_joinable<'a>(
    program: &Program,
    target: Option<u32>,
    run: Value,
    argument: Value,
    place: Place,
    next: u32,
) -> Result<Effect<'a>, Trouble>
    ensures { (turn : Turn) → starts_joinable turn target (value_of program.now.unit.names argument) place next (run_of (program_of program.now.unit) (value_of program.now.unit.names run)) ≡ act_of_result program.now.unit.names (program_of program.now.unit) turn result }
{
    match run_of(program, run) {
        Some(run) => Ok(Effect::StartJoinable {
            run,
            argument,
            target,
            next,
        }),
        None => trouble(FaultKind::Pointer, place),
    }
}

/// The byte that a number is written as: the number modulo 256 (C11 7.21.7.3).
fn byte_of(number: i128) -> u8
    ensures { result ≡ byte_of number }
{
    number.rem_euclid(256) as u8
}

/// Calls a function of the prelude, given the first two arguments.
fn call_prelude<'a>(
    program: &Program,
    running: &Running,
    thread: u32,
    function: PreludeFunction,
    target: Option<u32>,
    first: Value,
    second: Value,
    place: Place,
    next: u32,
) -> Result<Effect<'a>, Trouble>
    ensures { (turn : Turn) (vs : List model.Value) → turn.state.memory ≡ memory_of program.now.unit.names running.now.blocks
        → turn.state.threads ≡ map (thread_of program.now.unit.names) running.now.threads.items → turn.thread ≡ thread
        → argument vs 0 ≡ value_of program.now.unit.names first → argument vs 1 ≡ value_of program.now.unit.names second
        → calls_prelude (program_of program.now.unit) turn target vs place next (prelude_of function) ≡ act_of_result program.now.unit.names (program_of program.now.unit) turn result }
{
    let names = &program.unit.names;
    let blocks = &running.blocks;
    match function {
        PreludeFunction::Abort => Ok(Effect::Abort),
        PreludeFunction::PutChar => Ok(Effect::PutChar {
            byte: byte_of(number_of(first)),
            target,
            next,
        }),
        PreludeFunction::PrintInt => Ok(Effect::PrintInt {
            number: number_of(first),
            next,
        }),
        PreludeFunction::ThreadStart => start(program, first, second, place, next),
        PreludeFunction::ThreadStartJoinable => {
            start_joinable(program, target, first, second, place, next)
        }
        PreludeFunction::ThreadJoin => join(
            names,
            blocks,
            running.threads.as_slice(),
            first,
            place,
            next,
        ),
        PreludeFunction::CreateMutex => Ok(Effect::CreateMutex { target, next }),
        PreludeFunction::MutexAcquire => acquire(names, blocks, first, place, next),
        PreludeFunction::MutexRelease => release(names, blocks, thread, first, place, next),
        PreludeFunction::MutexDispose => dispose(names, blocks, first, place, next),
    }
}

/// Calls the function of a name, given its arguments and the values of the first two.
pub fn call<'a>(
    program: &Program,
    running: &Running,
    thread: u32,
    target: Option<u32>,
    name: Name,
    arguments: &'a Sequence<Expression>,
    first: Value,
    second: Value,
    place: Place,
    next: u32,
) -> Result<Effect<'a>, Trouble>
    ensures { (turn : Turn) → turn.state.memory ≡ memory_of program.now.unit.names running.now.blocks
        → turn.state.threads ≡ map (thread_of program.now.unit.names) running.now.threads.items → turn.thread ≡ thread
        → argument (values_or_none (all_values turn (expressions_of program.now.unit.names arguments.now))) 0 ≡ value_of program.now.unit.names first
        → argument (values_or_none (all_values turn (expressions_of program.now.unit.names arguments.now))) 1 ≡ value_of program.now.unit.names second
        → calls (program_of program.now.unit) turn target (identity_of program.now.unit.names name) (values_or_none (all_values turn (expressions_of program.now.unit.names arguments.now))) place next
        ≡ act_of_result program.now.unit.names (program_of program.now.unit) turn result }
{
    let found = resolved(program, name);
    match found.prelude {
        Some(function) => call_prelude(
            program, running, thread, function, target, first, second, place, next,
        ),
        None => match found.body {
            Some(function) => match program.unit.functions.get(function) {
                Some(_) => Ok(Effect::Enter {
                    function,
                    target,
                    arguments,
                    next,
                }),
                None => trouble(FaultKind::Pointer, place),
            },
            None => trouble(FaultKind::Pointer, place),
        },
    }
}

/// Calls the function that a value is, where it has the signature.
pub fn call_pointer<'a>(
    program: &Program,
    running: &Running,
    thread: u32,
    target: Option<u32>,
    pointer: Value,
    want: &Signature,
    arguments: &'a Sequence<Expression>,
    first: Value,
    second: Value,
    place: Place,
    next: u32,
) -> Result<Effect<'a>, Trouble>
    ensures { (turn : Turn) → turn.state.memory ≡ memory_of program.now.unit.names running.now.blocks
        → turn.state.threads ≡ map (thread_of program.now.unit.names) running.now.threads.items → turn.thread ≡ thread
        → argument (values_or_none (all_values turn (expressions_of program.now.unit.names arguments.now))) 0 ≡ value_of program.now.unit.names first
        → argument (values_or_none (all_values turn (expressions_of program.now.unit.names arguments.now))) 1 ≡ value_of program.now.unit.names second
        → calls_pointer (program_of program.now.unit) turn target (value_of program.now.unit.names pointer) (signature_of program.now.unit.names want.now) (values_or_none (all_values turn (expressions_of program.now.unit.names arguments.now))) place next
        ≡ act_of_result program.now.unit.names (program_of program.now.unit) turn result }
{
    match pointer {
        Value::Function(name) => {
            if has_signature(program, name, want) {
                call(
                    program, running, thread, target, name, arguments, first, second, place, next,
                )
            } else {
                trouble(FaultKind::Pointer, place)
            }
        }
        _ => trouble(FaultKind::Pointer, place),
    }
}
