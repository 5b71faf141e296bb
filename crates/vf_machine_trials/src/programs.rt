//! Small programs of two functions.

use crate::steps::{Act, MAIN, OTHER, STRUCTURE, at, steps_of};
use std::alloc::Global;
use vf_base::{IntType, Memory, Sequence, Text};
use vf_core::{
    CoreStep, Function, Name, Program, Scalar, Signature, StructBody, Unit, assemble_unit,
};
use vf_run::Machine;

/// The line of main's closing brace.
pub(crate) const CLOSING: u32 = 50;

/// The line of the other function's first step.
pub(crate) const SECOND: u32 = 101;

/// The names of all programs here.
fn names(alloc: Global) -> Result<Sequence<Text>, Memory> {
    let mut names = Sequence::new(alloc);
    for name in ["a.c#main", "a.c#f", "a.c#s", "<threading.h>#thread_start"] {
        names.push(Text::from_bytes(alloc, name.as_bytes())?)?;
    }
    Ok(names)
}

/// So many types of pointers.
fn pointers(alloc: Global, count: u32) -> Result<Sequence<Scalar>, Memory> {
    let mut types = Sequence::new(alloc);
    for _ in 0..count {
        types.push(Scalar::PointerToVoid)?;
    }
    Ok(types)
}

/// A function with three locals, the first of which is its parameter where it gives no value.
fn function(
    alloc: Global,
    identity: Name,
    gives: Scalar,
    steps: Sequence<CoreStep>,
) -> Result<Function, Memory> {
    let count = if let Scalar::Void = gives { 1 } else { 0 };
    let parameters = pointers(alloc, count)?;
    let locals = pointers(alloc, 3)?;
    Ok(Function {
        identity,
        signature: Signature { gives, parameters },
        locals,
        steps,
        closing: at(CLOSING),
    })
}

/// Main and the other function.
fn functions(
    alloc: Global,
    main: Sequence<CoreStep>,
    other: Sequence<CoreStep>,
) -> Result<Sequence<Function>, Memory> {
    let mut functions = Sequence::new(alloc);
    functions.push(function(alloc, MAIN, Scalar::Integer(IntType::Int), main)?)?;
    functions.push(function(alloc, OTHER, Scalar::Void, other)?)?;
    Ok(functions)
}

/// A struct of one field, an `int`.
fn structs(alloc: Global) -> Result<Sequence<StructBody>, Memory> {
    let mut fields = Sequence::new(alloc);
    fields.push(Scalar::Integer(IntType::Int))?;
    let mut structs = Sequence::new(alloc);
    structs.push(StructBody {
        identity: STRUCTURE,
        fields,
    })?;
    Ok(structs)
}

/// The program of these functions.
fn program(alloc: Global, functions: Sequence<Function>) -> Result<Program, Memory> {
    let names = names(alloc)?;
    let structs = structs(alloc)?;
    assemble_unit(
        alloc,
        Unit {
            names,
            functions,
            structs,
            main: 0,
        },
    )
}

/// The machine of a program with these steps of main and of the other function.
pub(crate) fn machine_with(
    alloc: Global,
    main: Sequence<CoreStep>,
    other: Sequence<CoreStep>,
) -> Result<Machine, Memory> {
    let functions = functions(alloc, main, other)?;
    let program = program(alloc, functions)?;
    Machine::start(alloc, program)
}

/// The machine of a program that does this in main and in the other function.
pub(crate) fn machine(alloc: Global, main: &[Act], other: &[Act]) -> Result<Machine, Memory> {
    let main = steps_of(alloc, main, 1)?;
    match steps_of(alloc, other, SECOND) {
        Ok(other) => machine_with(alloc, main, other),
        Err(fault) => Err(fault),
    }
}
