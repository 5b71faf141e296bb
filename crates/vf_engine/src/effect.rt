//! What a step does, once its operands are evaluated.

use crate::cell::Cell;
use crate::value::Value;
use vf_base::{Place, Sequence};
use vf_core::{Expression, Name};

/// What a step does. `next` is the step that follows, and a target the local that wants a result.
#[derive(Clone, Copy)]
pub enum Effect<'a> {
    /// Goes on.
    Goto {
        next: u32,
    },
    /// Puts a value into a local.
    Set {
        local: u32,
        value: Value,
        next: u32,
    },
    /// Reads a cell into a local.
    Load {
        local: u32,
        value: Value,
        cell: Cell,
        place: Place,
        next: u32,
    },
    /// Writes a cell.
    Store {
        cell: Cell,
        value: Value,
        place: Place,
        next: u32,
    },
    /// Allocates a struct.
    Allocate {
        local: u32,
        structure: Name,
        next: u32,
    },
    /// Allocates an array of `int`, of a length that is not negative.
    AllocateInts {
        local: u32,
        length: i128,
        next: u32,
    },
    /// Frees a block.
    Free {
        block: u32,
        place: Place,
        next: u32,
    },
    /// Calls the program's function of that number.
    Enter {
        function: usize,
        target: Option<u32>,
        arguments: &'a Sequence<Expression>,
        next: u32,
    },
    /// Leaves the body.
    Return(Option<Value>),
    /// Ends the run.
    Abort,
    /// Writes a byte, which is the result.
    PutChar {
        byte: u8,
        target: Option<u32>,
        next: u32,
    },
    /// Writes a number and a line feed.
    PrintInt {
        number: i128,
        next: u32,
    },
    /// Starts a thread in the program's function of that number.
    Start {
        run: usize,
        argument: Value,
        next: u32,
    },
    /// The same, with a handle.
    StartJoinable {
        run: usize,
        argument: Value,
        target: Option<u32>,
        next: u32,
    },
    /// Takes a handle or a mutex away.
    Remove {
        block: u32,
        next: u32,
    },
    /// Makes a free mutex.
    CreateMutex {
        target: Option<u32>,
        next: u32,
    },
    /// Makes this thread the holder of a mutex.
    Acquire {
        block: u32,
        next: u32,
    },
    /// Makes a mutex free.
    Release {
        block: u32,
        next: u32,
    },
    /// Waits.
    Wait,
}
