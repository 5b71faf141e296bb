//! What next steps touch.

ghost use Rattle.std.specs.Prelude.{◌≡◌, List};
ghost use Rattle.std.specs.Option.{option_map};
ghost use Rattle.vf_tree.specs.Core.{Identity, ProgramTree};
ghost use Rattle.vf_model.specs.State.{Turn};
ghost use Rattle.vf_model.specs.Races.{touch_in, next_touch};
ghost use Rattle.vf_core.specs.Shown.{program_of};
ghost use Rattle.vf_engine.specs.States.{state_of};
ghost use Rattle.vf_engine.specs.Effects.{act_of_effect, act_of_result};
ghost use Rattle.vf_run.specs.Acting.{IsKnown, KnownOrFault};
ghost use Rattle.vf_run.specs.Machines.{machine_program, machine_state};
ghost use Rattle.vf_looks.specs.Looks.{touch_of};

use vf_base::Place;
use vf_core::Program;
use vf_engine::{Effect, Running, Trouble};
use vf_run::{Machine, next_effect};

/// What a step reads, writes or frees: a cell of a block, or all its cells.
#[derive(Clone, Copy, Debug, PartialEq, Eq)]
pub struct Touch {
    pub block: u32,
    pub cell: Option<usize>,
    pub writes: bool,
    pub place: Place,
}

/// What an effect touches.
fn touch_by(effect: &Effect) -> Option<Touch>
    ensures { (names : List Identity) (p : ProgramTree) (turn : Turn) → IsKnown p effect.now → option_map touch_of result ≡ touch_in (act_of_effect names p turn effect.now) }
{
    match effect {
        Effect::Load {
            local: _,
            value: _,
            cell,
            place,
            next: _,
        } => Some(Touch {
            block: cell.block,
            cell: Some(cell.index),
            writes: false,
            place: *place,
        }),
        Effect::Store {
            cell,
            value: _,
            place,
            next: _,
        } => Some(Touch {
            block: cell.block,
            cell: Some(cell.index),
            writes: true,
            place: *place,
        }),
        Effect::Free {
            block,
            place,
            next: _,
        } => Some(Touch {
            block: *block,
            cell: None,
            writes: true,
            place: *place,
        }),
        _ => None,
    }
}

/// What the next step of a thread touches.
fn touch_at(program: &Program, running: &Running, thread: u32) -> Option<Touch>
    ensures { option_map touch_of result ≡ next_touch (program_of program.now.unit) (state_of program.now.unit.names running.now) thread }
{
    match running.end {
        Some(_) => None,
        None => match next_effect(program, running, thread) {
            Ok(effect) => touch_by(&effect),
            Err(_) => None,
        },
    }
}

/// What the next step of a thread touches, where that can step and its step touches a cell.
pub fn next_touch(machine: &Machine, thread: u32) -> Option<Touch>
    ensures { option_map touch_of result ≡ next_touch (machine_program machine.now) (machine_state machine.now) thread }
{
    touch_at(machine.program(), machine.running(), thread)
}
