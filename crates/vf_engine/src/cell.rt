//! Cells: where pointers lead to, and what is there.

ghost use Rattle.std.specs.Prelude.{◌≡◌, pos, ◌+ℤ◌, List};
ghost use Rattle.std.specs.Option.{option_map, option_copied};
ghost use Rattle.vf_tree.specs.Core.{Identity};
ghost use Rattle.vf_model.specs.Memory.{field_cell, cell_within, element_cell, content, is_place_in, block_at, is_struct_block, is_int_block};
ghost use Rattle.vf_core.specs.Shown.{identity_of, field_of};
ghost use Rattle.vf_engine.specs.Values.{value_of, cell_of};
ghost use Rattle.vf_engine.specs.Memories.{block_of, memory_of};
ghost use Rattle.vf_engine.specs.Cells.{place_of, index_in, is_index_or_end};

use crate::blocks::{Block, Blocks};
use crate::value::Value;
use vf_base::{Sequence, Text};
use vf_core::{Field, Name, same_name};

/// A cell's name: its block, and its place in it.
#[derive(Clone, Copy, Debug, PartialEq, Eq)]
pub struct Cell {
    pub block: u32,
    pub index: usize,
}

/// The cell of a field, where the pointer points to a struct that has it.
pub fn field_cell(
    names: &Sequence<Text>,
    blocks: &Blocks,
    pointer: Value,
    field: Field,
) -> Option<Cell>
    ensures { option_map place_of result ≡ field_cell (memory_of names.now blocks.now) (value_of names.now pointer) (field_of names.now field) }
{
    match pointer {
        Value::Pointer { block, .. } => match blocks.pointed_at(pointer) {
            Some(Block::Struct { structure, cells }) => {
                if same_name(names, *structure, field.structure) {
                    cell_within(block, field.index as usize, cells.len())
                } else {
                    None
                }
            }
            _ => None,
        },
        _ => None,
    }
}

/// The cell of an index, where the block is as long.
fn cell_within(block: u32, index: usize, length: usize) -> Option<Cell>
    ensures { option_map place_of result ≡ cell_within block index length }
{
    if index < length {
        Some(Cell { block, index })
    } else {
        None
    }
}

/// The sum of an offset and a number, where it is an index of a list of that length.
fn index_from(offset: usize, by: i128, length: usize) -> Option<usize>
    ensures { result ≡ index_in (pos offset +ℤ by) length }
{
    let at = (offset as i128).checked_add(by)?;
    let index = usize::try_from(at).ok()?;
    if index < length { Some(index) } else { None }
}

/// The cell of an element, where the pointer points into an array that has it.
pub fn element_cell(blocks: &Blocks, pointer: Value, by: i128) -> Option<Cell>
    ensures { (names : List Identity) → option_map place_of result ≡ element_cell (memory_of names blocks.now) (value_of names pointer) by }
{
    match pointer {
        Value::Pointer { block, offset } => match blocks.get(block) {
            Some(Block::Ints(cells)) => match index_from(offset, by, cells.len()) {
                Some(index) => Some(Cell { block, index }),
                None => None,
            },
            _ => None,
        },
        _ => None,
    }
}

/// What a cell holds.
pub fn content(blocks: &Blocks, cell: Cell) -> Option<Option<Value>>
    ensures { (names : List Identity) → option_map (cell_of names) result ≡ content (memory_of names blocks.now) (place_of cell) }
{
    match blocks.get(cell.block) {
        Some(Block::Struct { cells, .. }) => cells.get(cell.index).copied(),
        Some(Block::Ints(cells)) => cells.get(cell.index).copied(),
        _ => None,
    }
}

/// Whether a block is a struct of the name.
pub fn is_struct_block(names: &Sequence<Text>, structure: Name, block: Option<&Block>) -> bool
    ensures { result ≡ is_struct_block (identity_of names.now structure) (option_map (block_of names.now) (option_copied block.entry)) }
{
    match block {
        Some(
            Block::Struct {
                structure: own,
                cells: _,
            },
        ) => same_name(names, *own, structure),
        _ => false,
    }
}

/// Whether a block is an array of `int`.
pub fn is_int_block(block: Option<&Block>) -> bool
    ensures { (names : List Identity) → result ≡ is_int_block (option_map (block_of names) (option_copied block.entry)) }
{
    matches!(block, Some(Block::Ints(_)))
}

/// The sum of an offset and a number, where it is an index or the end of the array at the block.
pub fn place_in(blocks: &Blocks, block: u32, offset: usize, by: i128) -> Option<usize>
    ensures { (names : List Identity) → is_index_or_end result (pos offset +ℤ by) (is_place_in (pos offset +ℤ by) (block_at (memory_of names blocks.now) block)) }
{
    let Some(Block::Ints(cells)) = blocks.get(block) else {
        return None;
    };
    let at = (offset as i128).checked_add(by)?;
    let place = usize::try_from(at).ok()?;
    if place <= cells.len() {
        Some(place)
    } else {
        None
    }
}
