//! Mutexes.

ghost use Rattle.std.specs.Prelude.{◌≡◌, ◌<◌, ℕ, List, [], length, IsOk, IsSome, OnOk, OnErr};
ghost use Rattle.std.specs.FinMap as finite;
ghost use Rattle.vf_tree.specs.Core.{Identity, ProgramTree};
ghost use Rattle.vf_engine.specs.Memories.{block_of, memory_of};
ghost use Rattle.vf_engine.specs.Happenings.{Happened};
ghost use Rattle.vf_engine.specs.declared.effect.Effect.TheVariants as effects;
ghost use Rattle.vf_effects.specs.Becoming.{StaysAs};

use vf_base::Memory;
use vf_engine::{Block, Blocks, Change, Running, go};

/// Puts a block at a number. It takes no memory where a block is there.
fn put_block(blocks: &mut Blocks, number: u32, block: Block) -> Result<(), Memory>
    ensures put { OnOk result ((names : List Identity) → memory_of names blocks.new ≡ finite.insert (memory_of names blocks.old) number (block_of names block)) }
    ensures unchanged { OnErr result ((names : List Identity) → memory_of names blocks.new ≡ memory_of names blocks.old) }
    ensures outright { IsSome (finite.get (memory_of [] blocks.old) number) → IsOk result }
{
    if blocks.get(number).is_some() {
        blocks.replace(number, block);
        return Ok(());
    }
    blocks.insert(number, block)
}

/// Makes this thread the holder of a mutex.
pub fn acquire(running: &mut Running, thread: u32, block: u32, next: u32) -> Result<(), Memory>
    requires { thread < length running.old.threads.items }
    ensures happened { OnOk result ((names : List Identity) (p : ProgramTree) (grant : ℕ) → Happened names p running.old thread grant (effects.Acquire block next) running.new) }
    ensures unchanged { OnErr result ((names : List Identity) → StaysAs names running.old running.new) }
    ensures outright { IsSome (finite.get (memory_of [] running.old.blocks) block) → IsOk result }
{
    put_block(&mut running.blocks, block, Block::Mutex(Some(thread)))?;
    go(running, thread, Change::Goto { next });
    Ok(())
}

/// Makes a mutex free.
pub fn release(running: &mut Running, thread: u32, block: u32, next: u32) -> Result<(), Memory>
    requires { thread < length running.old.threads.items }
    ensures happened { OnOk result ((names : List Identity) (p : ProgramTree) (grant : ℕ) → Happened names p running.old thread grant (effects.Release block next) running.new) }
    ensures unchanged { OnErr result ((names : List Identity) → StaysAs names running.old running.new) }
    ensures outright { IsSome (finite.get (memory_of [] running.old.blocks) block) → IsOk result }
{
    put_block(&mut running.blocks, block, Block::Mutex(None))?;
    go(running, thread, Change::Goto { next });
    Ok(())
}
