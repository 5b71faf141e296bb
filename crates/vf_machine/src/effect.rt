//! What the next step of a body does.

ghost use Rattle.std.specs.Prelude.{◌≡◌, slice_get};
ghost use Rattle.std.specs.Option.{option_map};
ghost use Rattle.vf_tree.specs.Core.{ProgramTree};
ghost use Rattle.vf_tree.specs.Shown.{step_of};
ghost use Rattle.vf_model.specs.State.{Turn};
ghost use Rattle.vf_model.specs.Steps.{act_at};
ghost use Rattle.vf_machine.specs.Machine.{values_of};
ghost use Rattle.vf_machine.specs.Effects.{act_of_effect};

use crate::sum::{Trouble, sum_value};
use vf_model::FaultKind;
use vf_tree::{CoreStep, Function};

/// A step with its operands evaluated.
#[derive(Clone, Copy, Debug, PartialEq, Eq)]
pub enum Effect {
    /// The value goes into the local, and `next` is the next step.
    Set { local: u32, value: i128, next: u32 },
    /// The body returns the value.
    Return(i128),
    /// The step has a fault.
    Fault(Trouble),
}

/// What a step of a function does over the locals.
pub fn effect_of(function: &Function, step: u32, locals: &[Option<i128>]) -> Effect
    ensures { (p : ProgramTree) (turn : Turn) → turn.frame.locals ≡ values_of locals.now
        → act_at p turn function.now.closing (option_map step_of (slice_get function.now.steps step)) ≡ act_of_effect turn result }
{
    match function.steps.get(step as usize) {
        None => Effect::Fault(Trouble {
            kind: FaultKind::NoReturn,
            place: function.closing,
        }),
        Some(CoreStep::Set { local, value, next }) => match sum_value(locals, value) {
            Ok(value) => Effect::Set {
                local: *local,
                value,
                next: *next,
            },
            Err(trouble) => Effect::Fault(trouble),
        },
        Some(CoreStep::Return { value }) => match sum_value(locals, value) {
            Ok(value) => Effect::Return(value),
            Err(trouble) => Effect::Fault(trouble),
        },
    }
}
