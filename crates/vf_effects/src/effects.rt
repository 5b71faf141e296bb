//! What happens when a step is taken.

ghost use Rattle.std.specs.Prelude.{◌≡◌, ◌<◌, ℕ, List, length, IsOk, OnOk, OnErr};
ghost use Rattle.vf_tree.specs.Core.{Identity, ProgramTree};
ghost use Rattle.vf_core.specs.Shown.{program_of};
ghost use Rattle.vf_engine.specs.Happenings.{Happened};
ghost use Rattle.vf_effects.specs.Becoming.{StaysAs};
ghost use Rattle.vf_effects.specs.Rooms.{Fits, TakesNone, AllocatesNone, IsInPlace};

use crate::allocations::{abort, allocate, allocate_ints, create_mutex};
use crate::calls::{enter, leave};
use crate::mutexes::{acquire, release};
use crate::output::{print_int, put_char};
use crate::starts::{start, start_joinable};
use std::alloc::Global;
use vf_base::Memory;
use vf_core::Program;
use vf_engine::{Change, Effect, Running, go, remove, store};

/// Takes the step of a thread that needs no room of its own.
fn apply_in_place(running: &mut Running, thread: u32, effect: Effect)
    requires started { thread < length running.old.threads.items }
    requires in_place { IsInPlace effect }
    ensures { (names : List Identity) (p : ProgramTree) (grant : ℕ) → Happened names p running.old thread grant effect.entry running.new }
{
    match effect {
        Effect::Goto { next } => go(running, thread, Change::Goto { next }),
        Effect::Set { local, value, next } => {
            go(running, thread, Change::Set { local, value, next })
        }
        Effect::Load {
            local,
            value,
            next,
            ..
        } => go(running, thread, Change::Set { local, value, next }),
        Effect::Store {
            cell,
            value,
            next,
            ..
        } => store(running, thread, cell, value, next),
        Effect::Free { block, next, .. } => remove(running, thread, block, next),
        Effect::Remove { block, next } => remove(running, thread, block, next),
        Effect::Return(value) => leave(running, thread, value),
        Effect::Abort => abort(running),
        _ => {}
    }
}

/// Takes the step of a thread that allocates no block.
fn apply_ungranted(
    alloc: Global,
    program: &Program,
    running: &mut Running,
    thread: u32,
    effect: Effect,
) -> Result<(), Memory>
    requires started { thread < length running.old.threads.items }
    requires ungranted { AllocatesNone effect }
    ensures happened { OnOk result ((grant : ℕ) → Happened program.now.unit.names (program_of program.now.unit) running.old thread grant effect.entry running.new) }
    ensures unchanged { OnErr result (StaysAs program.now.unit.names running.old running.new) }
    ensures outright { (grant : ℕ) → TakesNone running.old grant effect.entry → IsOk result }
{
    match effect {
        Effect::Enter {
            function,
            target,
            arguments,
            next,
        } => enter(
            alloc, program, running, thread, function, target, arguments, next,
        ),
        Effect::PutChar { byte, target, next } => put_char(running, thread, byte, target, next),
        Effect::PrintInt { number, next } => print_int(alloc, running, thread, number, next),
        Effect::Start {
            run,
            argument,
            next,
        } => start(alloc, program, running, thread, run, argument, next),
        Effect::Acquire { block, next } => acquire(running, thread, block, next),
        Effect::Release { block, next } => release(running, thread, block, next),
        _ => {
            apply_in_place(running, thread, effect);
            Ok(())
        }
    }
}

/// Takes the step of a thread that has the effect, by a grant.
pub fn apply(
    alloc: Global,
    program: &Program,
    running: &mut Running,
    thread: u32,
    grant: u32,
    effect: Effect,
) -> Result<(), Memory>
    requires started { thread < length running.old.threads.items }
    requires room { Fits running.old grant effect }
    ensures happened { OnOk result (Happened program.now.unit.names (program_of program.now.unit) running.old thread grant effect.entry running.new) }
    ensures unchanged { OnErr result (StaysAs program.now.unit.names running.old running.new) }
    ensures outright { TakesNone running.old grant effect.entry → IsOk result }
{
    match effect {
        Effect::Allocate {
            local,
            structure,
            next,
        } => allocate(
            alloc, program, running, thread, grant, local, structure, next,
        ),
        Effect::AllocateInts {
            local,
            length,
            next,
        } => allocate_ints(alloc, running, thread, grant, local, length, next),
        Effect::CreateMutex { target, next } => create_mutex(running, thread, grant, target, next),
        Effect::StartJoinable {
            run,
            argument,
            target,
            next,
        } => start_joinable(
            alloc, program, running, thread, grant, run, argument, target, next,
        ),
        _ => apply_ungranted(alloc, program, running, thread, effect),
    }
}
