//! The steps of small programs.

use std::alloc::Global;
use vf_base::{Memory, Place, Sequence};
use vf_core::{CoreStep, Expression, Name};

pub(crate) const MAIN: Name = Name { number: 0 };

pub(crate) const OTHER: Name = Name { number: 1 };

pub(crate) const STRUCTURE: Name = Name { number: 2 };

pub(crate) const START: Name = Name { number: 3 };

/// What one step does. A function has three locals.
#[derive(Clone, Copy)]
pub(crate) enum Act {
    /// Sets a local to a number.
    Set(u32, i128),
    /// Allocates a struct for a local.
    New(u32),
    /// Allocates an array for a local.
    Ints(u32, i128),
    /// Calls a function without arguments, and sets a local.
    Call(Name, u32),
    /// Starts a thread in the other function with local 0, and sets local 1.
    Start(Name),
    Return(i128),
    Leave,
}

/// The first token of a line.
pub(crate) fn at(line: u32) -> Place {
    Place {
        file: 0,
        line,
        column: 1,
    }
}

fn read(local: u32, place: Place) -> Expression {
    Expression::Read { local, place }
}

/// The arguments of a start: the other function, and local 0.
fn started(alloc: Global, place: Place) -> Result<Sequence<Expression>, Memory> {
    let mut arguments = Sequence::new(alloc);
    arguments.push(Expression::Function(OTHER))?;
    arguments.push(read(0, place))?;
    Ok(arguments)
}

fn set(local: u32, value: Expression, next: u32) -> CoreStep {
    CoreStep::Set { local, value, next }
}

fn call(
    target: u32,
    function: Name,
    arguments: Sequence<Expression>,
    place: Place,
    next: u32,
) -> CoreStep {
    CoreStep::Call {
        target: Some(target),
        function,
        arguments,
        place,
        next,
    }
}

/// The step of an act that accesses no memory and calls nothing.
fn plain_step(alloc: Global, act: Act, place: Place, next: u32) -> Result<CoreStep, Memory> {
    match act {
        Act::Set(local, number) => Ok(set(local, Expression::Number(number), next)),
        Act::Return(number) => Ok(CoreStep::Return {
            value: Some(Expression::Number(number)),
        }),
        _ => Ok(CoreStep::Return { value: None }),
    }
}

/// The step of an act that calls a function, or of a plain one.
fn calling_step(alloc: Global, act: Act, place: Place, next: u32) -> Result<CoreStep, Memory> {
    match act {
        Act::Call(function, target) => {
            Ok(call(target, function, Sequence::new(alloc), place, next))
        }
        Act::Start(function) => {
            let arguments = started(alloc, place)?;
            Ok(call(1, function, arguments, place, next))
        }
        other => plain_step(alloc, other, place, next),
    }
}

/// The step of an act, at a place, with the number of the next one.
pub(crate) fn step_of(
    alloc: Global,
    act: Act,
    place: Place,
    next: u32,
) -> Result<CoreStep, Memory> {
    match act {
        Act::New(local) => Ok(CoreStep::Allocate {
            local,
            structure: STRUCTURE,
            next,
        }),
        Act::Ints(local, length) => Ok(CoreStep::AllocateInts {
            local,
            length: Expression::Number(length),
            place,
            next,
        }),
        other => calling_step(alloc, other, place, next),
    }
}

/// The steps of acts, one a line from this one on, each of which goes on at the next.
pub(crate) fn steps_of(
    alloc: Global,
    acts: &[Act],
    first_line: u32,
) -> Result<Sequence<CoreStep>, Memory> {
    let mut steps = Sequence::new(alloc);
    let mut count: u32 = 0;
    for act in acts {
        let place = at(first_line.wrapping_add(count));
        count = count.wrapping_add(1);
        steps.push(step_of(alloc, *act, place, count)?)?;
    }
    Ok(steps)
}
