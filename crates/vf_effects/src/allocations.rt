//! Allocations.

ghost use Rattle.std.specs.Prelude.{◌≡◌, ◌≢◌, ◌<◌, ◌≤◌, ℕ, List, map, replicate, Some, None, length, unsigned_abs, IfOk, IsOk, OnOk, OnErr};
ghost use Rattle.vf_tree.specs.Core.{Identity, ProgramTree};
ghost use Rattle.vf_model.specs.Memory.{unset_cells, Mutex};
ghost use Rattle.vf_core.specs.Shown.{program_of};
ghost use Rattle.vf_engine.specs.Values.{cells_of};
ghost use Rattle.vf_engine.specs.Memories.{block_of};
ghost use Rattle.vf_engine.specs.Happenings.{Happened};
ghost use Rattle.vf_engine.specs.declared.effect.Effect.TheVariants as effects;
ghost use Rattle.vf_effects.specs.Becoming.{Becomes, StaysAs, placed};
ghost use Rattle.vf_effects.specs.Rooms.{RoomForBlock};

use std::alloc::Global;
use vf_base::Memory;
use vf_core::{Name, Program, resolved};
use vf_engine::{Block, Change, End, Running, Value, go};

/// Cells that hold no value.
fn unset(alloc: Global, count: usize) -> Result<Vec<Option<Value>>, Memory>
    ensures { IfOk result (λ cells. (names : List Identity) → cells_of names cells.items ≡ unset_cells count) }
{
    let cells = vec![in alloc; None; count]?;
    Ok(cells)
}

/// Puts a block at the number that a grant other than 0 gives, and goes on with a pointer to it.
pub fn place_block(
    running: &mut Running,
    thread: u32,
    grant: u32,
    target: Option<u32>,
    block: Block,
    next: u32,
) -> Result<(), Memory>
    requires started { thread < length running.old.threads.items }
    requires room { RoomForBlock running.old }
    ensures placed { OnOk result ((names : List Identity) → Becomes names running.old thread (λ turn. placed turn grant target (block_of names block) next) running.new) }
    ensures unchanged { OnErr result ((names : List Identity) → StaysAs names running.old running.new) }
{
    let number = running.blocks.allocate(grant, block)?;
    go(
        running,
        thread,
        Change::Receive {
            target,
            value: Value::Pointer {
                block: number,
                offset: 0,
            },
            next,
        },
    );
    Ok(())
}

/// Ends the run by a step that aborts.
pub fn abort(running: &mut Running)
    ensures { (names : List Identity) (p : ProgramTree) (thread grant : ℕ) → Happened names p running.old thread grant effects.Abort running.new }
{
    running.end = Some(End::Aborted);
}

/// Allocates a struct.
pub fn allocate(
    alloc: Global,
    program: &Program,
    running: &mut Running,
    thread: u32,
    grant: u32,
    local: u32,
    structure: Name,
    next: u32,
) -> Result<(), Memory>
    requires started { thread < length running.old.threads.items }
    requires room { grant ≢ 0 → RoomForBlock running.old }
    ensures happened { OnOk result (Happened program.now.unit.names (program_of program.now.unit) running.old thread grant (effects.Allocate local structure next) running.new) }
    ensures unchanged { OnErr result ((names : List Identity) → StaysAs names running.old running.new) }
    ensures outright { grant ≡ 0 → IsOk result }
{
    if grant == 0 {
        let value = Value::Null;
        go(running, thread, Change::Set { local, value, next });
        return Ok(());
    }
    let cells = unset(alloc, resolved(program, structure).fields)?;
    let block = Block::Struct { structure, cells };
    place_block(running, thread, grant, Some(local), block, next)
}

/// Allocates an array of `int`.
pub fn allocate_ints(
    alloc: Global,
    running: &mut Running,
    thread: u32,
    grant: u32,
    local: u32,
    count: i128,
    next: u32,
) -> Result<(), Memory>
    requires started { thread < length running.old.threads.items }
    requires room { grant ≢ 0 → RoomForBlock running.old }
    requires short { grant ≢ 0 → unsigned_abs count ≤ 4194304 }
    ensures happened { OnOk result ((names : List Identity) (p : ProgramTree) → Happened names p running.old thread grant (effects.AllocateInts local count next) running.new) }
    ensures unchanged { OnErr result ((names : List Identity) → StaysAs names running.old running.new) }
    ensures outright { grant ≡ 0 → IsOk result }
{
    if grant == 0 {
        let value = Value::Null;
        go(running, thread, Change::Set { local, value, next });
        return Ok(());
    }
    let cells = unset(alloc, count.unsigned_abs() as usize)?;
    place_block(
        running,
        thread,
        grant,
        Some(local),
        Block::Ints(cells),
        next,
    )
}

/// Makes a free mutex, or ends the run where it is denied.
pub fn create_mutex(
    running: &mut Running,
    thread: u32,
    grant: u32,
    target: Option<u32>,
    next: u32,
) -> Result<(), Memory>
    requires started { thread < length running.old.threads.items }
    requires room { grant ≢ 0 → RoomForBlock running.old }
    ensures happened { OnOk result ((names : List Identity) (p : ProgramTree) → Happened names p running.old thread grant (effects.CreateMutex target next) running.new) }
    ensures unchanged { OnErr result ((names : List Identity) → StaysAs names running.old running.new) }
    ensures outright { grant ≡ 0 → IsOk result }
{
    if grant == 0 {
        abort(running);
        return Ok(());
    }
    place_block(running, thread, grant, target, Block::Mutex(None), next)
}
