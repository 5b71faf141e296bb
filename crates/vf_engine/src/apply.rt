//! What happens when a step is taken.

ghost use Rattle.std.specs.Prelude.{◌<◌, ℕ, List, length};
ghost use Rattle.vf_tree.specs.Core.{Identity, ProgramTree};
ghost use Rattle.vf_base.specs.declared.place.Place.{Place};
ghost use Rattle.vf_engine.specs.Happenings.{Happened, Changed};
ghost use Rattle.vf_engine.specs.declared.effect.Effect.TheVariants as effects;

use crate::cell::Cell;
use crate::state::Running;
use crate::threads::{Change, change_at};
use crate::value::Value;

/// Goes on, with a change of the frame.
pub fn go(running: &mut Running, thread: u32, change: Change)
    requires { thread < length running.old.threads.items }
    ensures { (names : List Identity) → Changed names running.old thread change running.new }
{
    change_at(&mut running.threads, thread as usize, change);
}

/// Writes a cell.
pub fn store(running: &mut Running, thread: u32, cell: Cell, value: Value, next: u32)
    requires { thread < length running.old.threads.items }
    ensures { (names : List Identity) (p : ProgramTree) (grant : ℕ) (place : Place) → Happened names p running.old thread grant (effects.Store cell value place next) running.new }
{
    running.blocks.write(cell.block, cell.index, value);
    go(running, thread, Change::Goto { next });
}

/// Takes a block away.
pub fn remove(running: &mut Running, thread: u32, block: u32, next: u32)
    requires { thread < length running.old.threads.items }
    ensures free { (names : List Identity) (p : ProgramTree) (grant : ℕ) (place : Place) → Happened names p running.old thread grant (effects.Free block place next) running.new }
    ensures removed { (names : List Identity) (p : ProgramTree) (grant : ℕ) → Happened names p running.old thread grant (effects.Remove block next) running.new }
{
    running.blocks.remove(block);
    go(running, thread, Change::Goto { next });
}
