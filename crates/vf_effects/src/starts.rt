//! Starts of threads.

ghost use Rattle.std.specs.Prelude.{◌≡◌, ◌≢◌, ◌<◌, ◌++◌, ℕ, List, [], ◌∷◌, None, map, length, IfOk, IsOk, OnOk, OnErr};
ghost use Rattle.vf_tree.specs.Core.{Identity};
ghost use Rattle.vf_model.specs.State.{entered};
ghost use Rattle.vf_core.specs.Shown.{function_of, program_of};
ghost use Rattle.vf_engine.specs.Values.{value_of};
ghost use Rattle.vf_engine.specs.Memories.{memory_of};
ghost use Rattle.vf_engine.specs.States.{frame_of, thread_of};
ghost use Rattle.vf_engine.specs.Happenings.{Happened};
ghost use Rattle.vf_engine.specs.declared.effect.Effect.TheVariants as effects;
ghost use Rattle.vf_effects.specs.Becoming.{StaysAs};
ghost use Rattle.vf_effects.specs.Rooms.{RoomForBlock};

use crate::allocations::{abort, place_block};
use std::alloc::Global;
use vf_base::Memory;
use vf_core::{Function, Program};
use vf_engine::{Block, Change, Running, Thread, Value, frame_of_call, go};

/// A new thread in a function, before the first step.
fn new_thread(
    alloc: Global,
    number: usize,
    function: &Function,
    argument: Value,
) -> Result<Thread, Memory>
    ensures { IfOk result (λ new. (names : List Identity) → thread_of names new ≡ entered number (function_of names function.now) (value_of names argument ∷ []) None ∷ []) }
{
    let values = vec![in alloc; Some(argument)]?;
    let frame = frame_of_call(number, function, values, None)?;
    Ok(Thread {
        frame: Some(frame),
        callers: Vec::new(alloc),
    })
}

/// Starts a thread in the program's function of a number.
pub fn start(
    alloc: Global,
    program: &Program,
    running: &mut Running,
    thread: u32,
    number: usize,
    argument: Value,
    next: u32,
) -> Result<(), Memory>
    requires { thread < length running.old.threads.items }
    ensures happened { OnOk result ((grant : ℕ) → Happened program.now.unit.names (program_of program.now.unit) running.old thread grant (effects.Start number argument next) running.new) }
    ensures unchanged { OnErr result ((names : List Identity) → StaysAs names running.old running.new) }
{
    let Some(function) = program.unit.functions.get(number) else {
        return Ok(());
    };
    let new = new_thread(alloc, number, function, argument)?;
    running.threads.push(new)?;
    go(running, thread, Change::Goto { next });
    Ok(())
}

/// Starts a thread that can be joined, or ends the run where its handle is denied.
pub fn start_joinable(
    alloc: Global,
    program: &Program,
    running: &mut Running,
    thread: u32,
    grant: u32,
    number: usize,
    argument: Value,
    target: Option<u32>,
    next: u32,
) -> Result<(), Memory>
    requires started { thread < length running.old.threads.items }
    requires room { grant ≢ 0 → RoomForBlock running.old }
    requires few { grant ≢ 0 → length running.old.threads.items < 1024 }
    ensures happened { OnOk result (Happened program.now.unit.names (program_of program.now.unit) running.old thread grant (effects.StartJoinable number argument target next) running.new) }
    ensures unchanged { OnErr result ((names : List Identity) → StaysAs names running.old running.new) }
    ensures outright { grant ≡ 0 → IsOk result }
{
    let Some(function) = program.unit.functions.get(number) else {
        return Ok(());
    };
    if grant == 0 {
        abort(running);
        return Ok(());
    }
    let new = new_thread(alloc, number, function, argument)?;
    let block = Block::Handle {
        thread: running.threads.len() as u32,
        run: function.identity,
        argument,
    };
    running.threads.push(new)?;
    match place_block(running, thread, grant, target, block, next) {
        Ok(()) => Ok(()),
        Err(memory) => {
            let _new = running.threads.pop();
            Err(memory)
        }
    }
}
