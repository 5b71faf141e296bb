//! Steps that read, write, allocate and free cells.

ghost use Rattle.std.specs.Prelude.{◌≡◌, Err, List};
ghost use Rattle.std.specs.Option.{option_map};
ghost use Rattle.vf_tree.specs.Core.{Identity, ProgramTree};
ghost use Rattle.vf_model.specs.Memory.{is_struct_block, is_int_block};
ghost use Rattle.vf_model.specs.State.{Turn};
ghost use Rattle.vf_model.specs.Accesses.{loads, stores, frees, offsets, allocates_ints};
ghost use Rattle.vf_core.specs.Shown.{identity_of};
ghost use Rattle.vf_engine.specs.Values.{value_of};
ghost use Rattle.vf_engine.specs.Memories.{memory_of};
ghost use Rattle.vf_engine.specs.Cells.{place_of};
ghost use Rattle.vf_engine.specs.Effects.{act_of_result};

use crate::blocks::Blocks;
use crate::cell::{Cell, content, is_int_block, is_struct_block, place_in};
use crate::effect::Effect;
use crate::expressions::Trouble;
use crate::value::Value;
use vf_base::{Place, Sequence, Text};
use vf_core::Name;
use vf_model::FaultKind;

/// A fault that a step has.
pub fn trouble<'a>(kind: FaultKind, place: Place) -> Result<Effect<'a>, Trouble>
    ensures { result ≡ Err (record { kind = kind; place = place }) }
{
    Err(Trouble { kind, place })
}

/// Reads a cell into a local.
pub fn load<'a>(
    blocks: &Blocks,
    local: u32,
    place: Place,
    next: u32,
    cell: Option<Cell>,
) -> Result<Effect<'a>, Trouble>
    ensures { (names : List Identity) (p : ProgramTree) (turn : Turn) → turn.state.memory ≡ memory_of names blocks.now
        → loads turn local place next (option_map place_of cell) ≡ act_of_result names p turn result }
{
    let Some(cell) = cell else {
        return trouble(FaultKind::Access, place);
    };
    match content(blocks, cell) {
        Some(Some(value)) => Ok(Effect::Load {
            local,
            value,
            cell,
            place,
            next,
        }),
        _ => trouble(FaultKind::Unset, place),
    }
}

/// Writes a cell.
pub fn store<'a>(
    value: Value,
    place: Place,
    next: u32,
    cell: Option<Cell>,
) -> Result<Effect<'a>, Trouble>
    ensures { (names : List Identity) (p : ProgramTree) (turn : Turn)
        → stores turn (value_of names value) place next (option_map place_of cell) ≡ act_of_result names p turn result }
{
    match cell {
        None => trouble(FaultKind::Access, place),
        Some(cell) => Ok(Effect::Store {
            cell,
            value,
            place,
            next,
        }),
    }
}

/// Allocates an array of `int`.
pub fn allocate_ints<'a>(
    local: u32,
    length: i128,
    place: Place,
    next: u32,
) -> Result<Effect<'a>, Trouble>
    ensures { (names : List Identity) (p : ProgramTree) (turn : Turn)
        → allocates_ints turn local length place next ≡ act_of_result names p turn result }
{
    if length < 0 {
        return trouble(FaultKind::Range, place);
    }
    Ok(Effect::AllocateInts {
        local,
        length,
        next,
    })
}

/// Frees a struct.
pub fn free_struct<'a>(
    names: &Sequence<Text>,
    blocks: &Blocks,
    pointer: Value,
    structure: Name,
    place: Place,
    next: u32,
) -> Result<Effect<'a>, Trouble>
    ensures { (p : ProgramTree) (turn : Turn) → turn.state.memory ≡ memory_of names.now blocks.now
        → frees turn (value_of names.now pointer) place next (is_struct_block (identity_of names.now structure)) ≡ act_of_result names.now p turn result }
{
    match pointer {
        Value::Null => Ok(Effect::Goto { next }),
        Value::Pointer { block, .. } => {
            if is_struct_block(names, structure, blocks.pointed_at(pointer)) {
                Ok(Effect::Free { block, place, next })
            } else {
                trouble(FaultKind::Free, place)
            }
        }
        _ => trouble(FaultKind::Free, place),
    }
}

/// Frees an array of `int`.
pub fn free_ints<'a>(
    blocks: &Blocks,
    pointer: Value,
    place: Place,
    next: u32,
) -> Result<Effect<'a>, Trouble>
    ensures { (names : List Identity) (p : ProgramTree) (turn : Turn) → turn.state.memory ≡ memory_of names blocks.now
        → frees turn (value_of names pointer) place next is_int_block ≡ act_of_result names p turn result }
{
    match pointer {
        Value::Null => Ok(Effect::Goto { next }),
        Value::Pointer { block, .. } => {
            if is_int_block(blocks.pointed_at(pointer)) {
                Ok(Effect::Free { block, place, next })
            } else {
                trouble(FaultKind::Free, place)
            }
        }
        _ => trouble(FaultKind::Free, place),
    }
}

/// Puts a pointer with a greater offset into a local.
pub fn offset<'a>(
    blocks: &Blocks,
    local: u32,
    pointer: Value,
    by: i128,
    place: Place,
    next: u32,
) -> Result<Effect<'a>, Trouble>
    ensures { (names : List Identity) (p : ProgramTree) (turn : Turn) → turn.state.memory ≡ memory_of names blocks.now
        → offsets turn local (value_of names pointer) by place next ≡ act_of_result names p turn result }
{
    if by == 0 {
        return Ok(Effect::Set {
            local,
            value: pointer,
            next,
        });
    }
    let Value::Pointer { block, offset } = pointer else {
        return trouble(FaultKind::Access, place);
    };
    match place_in(blocks, block, offset, by) {
        Some(offset) => Ok(Effect::Set {
            local,
            value: Value::Pointer { block, offset },
            next,
        }),
        None => trouble(FaultKind::Access, place),
    }
}
