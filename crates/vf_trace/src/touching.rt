//! Whether two steps touch one cell.

ghost use Rattle.std.specs.Prelude.{◌≡◌, ◌↔◌, ◌||◌, List, length, IsTrue};
ghost use Rattle.vf_tree.specs.Core.{Identity};
ghost use Rattle.vf_model.specs.Memory.{cells_of, cells_at, block_at};
ghost use Rattle.vf_engine.specs.Memories.{block_of};
ghost use Rattle.vf_run.specs.Machines.{machine_state};
ghost use Rattle.vf_looks.specs.Looks.{touch_of};
ghost use Rattle.vf_trace.specs.Touching.{Clash, FindsCommon};

use vf_engine::Block;
use vf_looks::Touch;
use vf_run::Machine;

/// How many cells a block has.
fn cells_in(block: &Block) -> usize
    ensures { (names : List Identity) → result ≡ length (cells_of (block_of names block.now)) }
{
    match block {
        Block::Struct {
            structure: _,
            cells,
        } => cells.len(),
        Block::Ints(cells) => cells.len(),
        Block::Mutex(_) | Block::Handle { .. } => 0,
    }
}

/// How many cells the block of a number has, and 0 where there is no such block.
fn cell_count(machine: &Machine, block: u32) -> usize
    ensures { result ≡ length (cells_at (block_at (machine_state machine.now).memory block)) }
{
    match machine.running().blocks.get(block) {
        Some(block) => cells_in(block),
        None => 0,
    }
}

/// The least index that both touch, where no index stands for all.
fn common_index(one: Option<usize>, two: Option<usize>) -> Option<usize>
    ensures { FindsCommon one two result }
{
    match one {
        None => match two {
            None => Some(0),
            Some(index) => Some(index),
        },
        Some(index) => match two {
            None => Some(index),
            Some(other) => { if index == other { Some(index) } else { None } }
        },
    }
}

/// Whether one of them writes a cell or frees a block.
fn either_writes(one: Touch, two: Touch) -> bool
    ensures { result ≡ (one.writes || two.writes) }
{
    one.writes || two.writes
}

/// Whether one cell is touched by both, and one of them writes it or frees its block.
pub fn clashes(machine: &Machine, one: Touch, two: Touch) -> bool
    ensures { IsTrue result ↔ Clash (machine_state machine.now).memory (touch_of one) (touch_of two) }
{
    if one.block != two.block {
        return false;
    }
    if !either_writes(one, two) {
        return false;
    }
    match common_index(one.cell, two.cell) {
        Some(index) => index < cell_count(machine, one.block),
        None => false,
    }
}
