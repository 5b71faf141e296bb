//! The steps of a refutation, as they are written.

ghost use Rattle.std.specs.Prelude.{◌≡◌, ◌++◌, ◌∷◌, [], length, IfOk, OnOk};

use std::alloc::Global;
use vf_base::Memory;
use vf_recheck::Step;
use vf_refute::Derived;

/// The most steps of a refutation: the number of each has 32 bits.
const MOST_STEPS: usize = u32::MAX as usize;

/// The steps that were written so far, and what each derived.
#[derive(Drop)]
pub(crate) struct Draft {
    pub(crate) steps: Vec<Step>,
    pub(crate) known: Vec<Derived>,
}

/// No steps.
pub(crate) fn empty(alloc: Global) -> Draft
    ensures steps { result.steps.items ≡ [] }
    ensures known { result.known.items ≡ [] }
{
    Draft {
        steps: Vec::new(alloc),
        known: Vec::new(alloc),
    }
}

/// Writes a step that derives something, and answers its number.
pub(crate) fn write(draft: &mut Draft, step: Step, derived: Derived) -> Result<u32, Memory>
    ensures steps { OnOk result (draft.new.steps.items ≡ draft.old.steps.items ++ step ∷ []) }
    ensures known { OnOk result (draft.new.known.items ≡ draft.old.known.items ++ derived ∷ []) }
    ensures number { IfOk result (λ n. n ≡ length draft.old.known.items) }
{
    if draft.known.len() > MOST_STEPS {
        return Err(Memory);
    }
    let number = draft.known.len() as u32;
    draft.steps.push(step)?;
    draft.known.push(derived)?;
    Ok(number)
}
