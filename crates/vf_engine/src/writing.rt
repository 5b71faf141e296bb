//! Writes of values into the cells of blocks.

ghost use Rattle.std.specs.Prelude.{◌≡◌, List, Some, slice_set};
ghost use Rattle.vf_tree.specs.Core.{Identity};
ghost use Rattle.vf_engine.specs.Values.{value_of, cells_of};
ghost use Rattle.vf_engine.specs.Memories.{block_of, set_in};

use crate::blocks::Block;
use crate::value::Value;

/// Writes a cell of a block, where it is there.
pub fn set_cell(block: &mut Block, index: usize, value: Value)
    ensures { (names : List Identity) → block_of names block.new ≡ set_in (block_of names block.old) index (value_of names value) }
{
    match block {
        Block::Struct {
            structure: _,
            cells,
        } => set_at(cells, index, value),
        Block::Ints(cells) => set_at(cells, index, value),
        Block::Mutex(_) | Block::Handle { .. } => {}
    }
}

/// Writes a value at an index, where it is there.
pub fn set_at(cells: &mut Vec<Option<Value>>, index: usize, value: Value)
    ensures { (names : List Identity) → cells_of names cells.new.items ≡ slice_set (cells_of names cells.old.items) index (Some (value_of names value)) }
{
    if index < cells.len() {
        cells[index] = Some(value);
    }
}
