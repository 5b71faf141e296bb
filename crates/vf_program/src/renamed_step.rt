//! Steps, functions and structs of a unit in a table of names that holds the unit's own.

ghost use Rattle.std.specs.Prelude.{◌≡◌, ◌++◌, map, IfOk, OnOk};
ghost use Rattle.vf_core.specs.Shown.{function_of, step_of, struct_of};

use crate::renaming::Renaming;
use std::alloc::Global;
use vf_base::{Memory, Sequence};
use vf_core::{CoreStep, Function, StructBody};

impl Renaming<'_> {
    /// A step.
    fn step(&self, alloc: Global, step: &CoreStep) -> Result<CoreStep, Memory>
        ensures { IfOk result (λ s. step_of self.now.all.now s ≡ step_of self.now.own.now step.now) }
    {
        match step {
            CoreStep::Set { local, value, next } => Ok(CoreStep::Set {
                local: *local,
                value: self.expression(alloc, value)?,
                next: *next,
            }),
            CoreStep::Load {
                local,
                pointer,
                field,
                place,
                next,
            } => Ok(CoreStep::Load {
                local: *local,
                pointer: self.expression(alloc, pointer)?,
                field: self.field(*field),
                place: *place,
                next: *next,
            }),
            CoreStep::Store {
                pointer,
                field,
                value,
                place,
                next,
            } => Ok(CoreStep::Store {
                pointer: self.expression(alloc, pointer)?,
                field: self.field(*field),
                value: self.expression(alloc, value)?,
                place: *place,
                next: *next,
            }),
            CoreStep::Allocate {
                local,
                structure,
                next,
            } => Ok(CoreStep::Allocate {
                local: *local,
                structure: self.name(*structure),
                next: *next,
            }),
            CoreStep::Free {
                pointer,
                structure,
                place,
                next,
            } => Ok(CoreStep::Free {
                pointer: self.expression(alloc, pointer)?,
                structure: self.name(*structure),
                place: *place,
                next: *next,
            }),
            CoreStep::Offset {
                local,
                pointer,
                by,
                place,
                next,
            } => Ok(CoreStep::Offset {
                local: *local,
                pointer: self.expression(alloc, pointer)?,
                by: self.expression(alloc, by)?,
                place: *place,
                next: *next,
            }),
            CoreStep::LoadAt {
                local,
                pointer,
                index,
                place,
                next,
            } => Ok(CoreStep::LoadAt {
                local: *local,
                pointer: self.expression(alloc, pointer)?,
                index: self.expression(alloc, index)?,
                place: *place,
                next: *next,
            }),
            CoreStep::StoreAt {
                pointer,
                index,
                value,
                place,
                next,
            } => Ok(CoreStep::StoreAt {
                pointer: self.expression(alloc, pointer)?,
                index: self.expression(alloc, index)?,
                value: self.expression(alloc, value)?,
                place: *place,
                next: *next,
            }),
            CoreStep::AllocateInts {
                local,
                length,
                place,
                next,
            } => Ok(CoreStep::AllocateInts {
                local: *local,
                length: self.expression(alloc, length)?,
                place: *place,
                next: *next,
            }),
            CoreStep::FreeInts {
                pointer,
                place,
                next,
            } => Ok(CoreStep::FreeInts {
                pointer: self.expression(alloc, pointer)?,
                place: *place,
                next: *next,
            }),
            CoreStep::Call {
                target,
                function,
                arguments,
                place,
                next,
            } => Ok(CoreStep::Call {
                target: *target,
                function: self.name(*function),
                arguments: self.expressions(alloc, arguments)?,
                place: *place,
                next: *next,
            }),
            CoreStep::CallPointer {
                target,
                pointer,
                signature,
                arguments,
                place,
                next,
            } => Ok(CoreStep::CallPointer {
                target: *target,
                pointer: self.expression(alloc, pointer)?,
                signature: self.signature(alloc, signature)?,
                arguments: self.expressions(alloc, arguments)?,
                place: *place,
                next: *next,
            }),
            CoreStep::If {
                comparison,
                left,
                right,
                so,
                otherwise,
            } => Ok(CoreStep::If {
                comparison: *comparison,
                left: self.expression(alloc, left)?,
                right: self.expression(alloc, right)?,
                so: *so,
                otherwise: *otherwise,
            }),
            CoreStep::Return { value } => Ok(CoreStep::Return {
                value: self.optional_expression(alloc, value)?,
            }),
        }
    }

    /// Steps in order.
    fn steps(&self, alloc: Global, steps: &Sequence<CoreStep>) -> Result<Sequence<CoreStep>, Memory>
        ensures { IfOk result (λ ss. map (step_of self.now.all.now) ss ≡ map (step_of self.now.own.now) steps.now) }
    {
        let mut all = Sequence::new(alloc);
        for step in steps.as_slice() {
            all.push(self.step(alloc, step)?)?;
        }
        Ok(all)
    }

    /// A function.
    pub fn function(&self, alloc: Global, function: &Function) -> Result<Function, Memory>
        ensures { IfOk result (λ f. function_of self.now.all.now f ≡ function_of self.now.own.now function.now) }
    {
        Ok(Function {
            identity: self.name(function.identity),
            signature: self.signature(alloc, &function.signature)?,
            locals: self.scalars(alloc, &function.locals)?,
            steps: self.steps(alloc, &function.steps)?,
            closing: function.closing,
        })
    }

    /// A struct.
    pub fn structure(&self, alloc: Global, body: &StructBody) -> Result<StructBody, Memory>
        ensures { IfOk result (λ s. struct_of self.now.all.now s ≡ struct_of self.now.own.now body.now) }
    {
        Ok(StructBody {
            identity: self.name(body.identity),
            fields: self.scalars(alloc, &body.fields)?,
        })
    }
}
