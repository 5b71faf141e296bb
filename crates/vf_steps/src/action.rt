//! Steps, and what stands between them.

use crate::value::Value;
use vf_base::{Place, Sequence};
use vf_core::Comparison;
use vf_syntax::contract::Invariant;
use vf_syntax::ghost_command::GhostCommand;

/// A field: the number of its struct, and its place in the struct's body, counted from 0.
#[derive(Clone, Copy, Debug, PartialEq, Eq)]
pub struct FieldNumber {
    pub structure: usize,
    pub index: usize,
}

/// What a node of a body does. All but an `If`, a `Jump`, a `Back`, a `Return` and a `NoReturn` go on at the next node.
///
/// Ghost commands and invariants are those of the text, and are not copied.
///
/// The place of a field access is its `->`, of an array access its `[`, of a pointer sum its `+`, of the length of an
/// allocation its `*`, of `free` that word, and of another call its first token.
#[derive(Drop)]
pub enum Action<'a> {
    /// Evaluates the value into a local.
    Set {
        local: usize,
        value: Value,
    },
    /// Reads a field into a local.
    Load {
        local: usize,
        pointer: Value,
        field: FieldNumber,
        place: Place,
    },
    /// Writes a field.
    Store {
        pointer: Value,
        field: FieldNumber,
        value: Value,
        place: Place,
    },
    /// Allocates a struct, and puts its pointer or null into a local.
    Allocate {
        local: usize,
        structure: usize,
    },
    /// Frees a struct.
    Free {
        pointer: Value,
        structure: usize,
        place: Place,
    },
    /// Puts a pointer with a greater offset into a local.
    Offset {
        local: usize,
        pointer: Value,
        by: Value,
        place: Place,
    },
    /// Reads an element of an array of `int` into a local.
    LoadAt {
        local: usize,
        pointer: Value,
        index: Value,
        place: Place,
    },
    /// Writes an element of an array of `int`.
    StoreAt {
        pointer: Value,
        index: Value,
        value: Value,
        place: Place,
    },
    /// Allocates an array of `int`, and puts its pointer or null into a local.
    AllocateInts {
        local: usize,
        length: Value,
        place: Place,
    },
    /// Frees an array of `int`.
    FreeInts {
        pointer: Value,
        place: Place,
    },
    /// Calls a function; a result that no local wants is forgotten.
    Call {
        target: Option<usize>,
        function: usize,
        arguments: Sequence<Value>,
        place: Place,
    },
    /// Calls the function that a pointer points to, which must be of a function type.
    CallPointer {
        target: Option<usize>,
        pointer: Value,
        function_type: usize,
        arguments: Sequence<Value>,
        place: Place,
    },
    /// Skips so many nodes where the comparison holds, and so many where it doesn't.
    If {
        comparison: Comparison,
        left: Value,
        right: Value,
        so: usize,
        otherwise: usize,
    },
    /// Leaves the body, with a value where there is one.
    Return {
        value: Option<Value>,
    },
    /// Skips so many nodes. It is no step.
    Jump(usize),
    /// A local is declared that has no value yet. It is no step.
    Unset(usize),
    /// A ghost command. It is no step.
    Ghost(&'a GhostCommand),
    /// The head of a loop of so many nodes, which follow, with its invariant where it has one; the place is the last token
    /// of the loop's body. It is no step.
    Loop {
        invariant: &'a Option<Invariant>,
        length: usize,
        last: Place,
    },
    /// Goes back over so many nodes, to the first behind the head of the loop. It is no step.
    Back(usize),
    /// The end of a loop. It is no step.
    Exit,
    /// The end of a body that owes a value, at its closing brace. It is no step.
    NoReturn,
}

/// A node of a body, and the place of the first token of the statement that it is part of.
#[derive(Drop)]
pub struct Node<'a> {
    pub statement: Place,
    pub action: Action<'a>,
}
