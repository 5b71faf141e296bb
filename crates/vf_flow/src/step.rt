//! Nodes as steps.

ghost use Rattle.std.specs.Prelude.{◌≡◌, ◌+◌, IfOk, option_map};
ghost use Rattle.vf_core.specs.Shown.{step_of};
ghost use Rattle.vf_steps.specs.Core.{step_tree};
ghost use Rattle.vf_steps.specs.Shown.{action_of};
ghost use Rattle.vf_flow.specs.Shown.{number_in};
ghost use Rattle.vf_flow.specs.Named.{naming_of};
ghost use Rattle.vf_flow.specs.Steps.{renumbered};

use crate::expression::{expression, expressions, optional_expression};
use crate::naming::Naming;
use crate::numbers::{StepNumbers, narrow};
use std::alloc::Global;
use vf_base::Memory;
use vf_core::CoreStep;
use vf_steps::Action;

/// A number of a local, where there is one.
fn optional_local(local: Option<usize>) -> Result<Option<u32>, Memory>
    ensures { IfOk result (λ l. l ≡ local) }
{
    match local {
        Some(local) => Ok(Some(narrow(local)?)),
        None => Ok(None),
    }
}

/// The number of the step that the node behind one leads to.
fn next(numbers: &StepNumbers, at: usize) -> u32
    ensures { result ≡ number_in numbers.now (at + 1) }
{
    numbers.behind(at, 0)
}

/// The step of a node at an index that does something, if it is a step, by the numbers of the steps that nodes lead to.
pub fn core_step(
    alloc: Global,
    naming: &Naming<'_>,
    numbers: &StepNumbers,
    at: usize,
    action: &Action<'_>,
) -> Result<Option<CoreStep>, Memory>
    ensures { IfOk result (λ s. option_map (step_of naming.now.names.now) s ≡ option_map (renumbered (number_in numbers.now)) (step_tree (naming_of naming.now) at (action_of action.now))) }
{
    let next = next(numbers, at);
    match action {
        Action::Set { local, value } => Ok(Some(CoreStep::Set {
            local: narrow(*local)?,
            value: expression(alloc, naming, value)?,
            next,
        })),
        Action::Load {
            local,
            pointer,
            field,
            place,
        } => Ok(Some(CoreStep::Load {
            local: narrow(*local)?,
            pointer: expression(alloc, naming, pointer)?,
            field: naming.field(*field)?,
            place: *place,
            next,
        })),
        Action::Store {
            pointer,
            field,
            value,
            place,
        } => Ok(Some(CoreStep::Store {
            pointer: expression(alloc, naming, pointer)?,
            field: naming.field(*field)?,
            value: expression(alloc, naming, value)?,
            place: *place,
            next,
        })),
        Action::Allocate { local, structure } => Ok(Some(CoreStep::Allocate {
            local: narrow(*local)?,
            structure: naming.structure(*structure),
            next,
        })),
        Action::Free {
            pointer,
            structure,
            place,
        } => Ok(Some(CoreStep::Free {
            pointer: expression(alloc, naming, pointer)?,
            structure: naming.structure(*structure),
            place: *place,
            next,
        })),
        Action::Offset {
            local,
            pointer,
            by,
            place,
        } => Ok(Some(CoreStep::Offset {
            local: narrow(*local)?,
            pointer: expression(alloc, naming, pointer)?,
            by: expression(alloc, naming, by)?,
            place: *place,
            next,
        })),
        Action::LoadAt {
            local,
            pointer,
            index,
            place,
        } => Ok(Some(CoreStep::LoadAt {
            local: narrow(*local)?,
            pointer: expression(alloc, naming, pointer)?,
            index: expression(alloc, naming, index)?,
            place: *place,
            next,
        })),
        Action::StoreAt {
            pointer,
            index,
            value,
            place,
        } => Ok(Some(CoreStep::StoreAt {
            pointer: expression(alloc, naming, pointer)?,
            index: expression(alloc, naming, index)?,
            value: expression(alloc, naming, value)?,
            place: *place,
            next,
        })),
        Action::AllocateInts {
            local,
            length,
            place,
        } => Ok(Some(CoreStep::AllocateInts {
            local: narrow(*local)?,
            length: expression(alloc, naming, length)?,
            place: *place,
            next,
        })),
        Action::FreeInts { pointer, place } => Ok(Some(CoreStep::FreeInts {
            pointer: expression(alloc, naming, pointer)?,
            place: *place,
            next,
        })),
        Action::Call {
            target,
            function,
            arguments,
            place,
        } => Ok(Some(CoreStep::Call {
            target: optional_local(*target)?,
            function: naming.function(*function),
            arguments: expressions(alloc, naming, arguments)?,
            place: *place,
            next,
        })),
        Action::CallPointer {
            target,
            pointer,
            function_type,
            arguments,
            place,
        } => Ok(Some(CoreStep::CallPointer {
            target: optional_local(*target)?,
            pointer: expression(alloc, naming, pointer)?,
            signature: naming.function_type_signature(alloc, *function_type)?,
            arguments: expressions(alloc, naming, arguments)?,
            place: *place,
            next,
        })),
        Action::If {
            comparison,
            left,
            right,
            so,
            otherwise,
        } => Ok(Some(CoreStep::If {
            comparison: *comparison,
            left: expression(alloc, naming, left)?,
            right: expression(alloc, naming, right)?,
            so: numbers.behind(at, *so),
            otherwise: numbers.behind(at, *otherwise),
        })),
        Action::Return { value } => Ok(Some(CoreStep::Return {
            value: optional_expression(alloc, naming, value)?,
        })),
        Action::Jump(_)
        | Action::Unset(_)
        | Action::Ghost(_)
        | Action::Loop { .. }
        | Action::Back(_)
        | Action::Exit
        | Action::NoReturn => Ok(None),
    }
}
