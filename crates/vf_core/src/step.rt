//! Core steps, functions and units.

use crate::expression::Expression;
use crate::words::{Comparison, Field, Name, Scalar, Signature};
use vf_base::{Place, Sequence, Text};

/// One event of a thread. `next` is the number of the step that follows.
///
/// The place of a field access is its `->`, of an array access its `[`, of a pointer sum its `+`, of
/// the length of an allocation its `*`, of `free` that word, and of another call its first token.
#[derive(Debug, Drop)]
pub enum CoreStep {
    /// Evaluates the expression into a local.
    Set {
        local: u32,
        value: Expression,
        next: u32,
    },
    /// Reads a field into a local.
    Load {
        local: u32,
        pointer: Expression,
        field: Field,
        place: Place,
        next: u32,
    },
    /// Writes a field.
    Store {
        pointer: Expression,
        field: Field,
        value: Expression,
        place: Place,
        next: u32,
    },
    /// Allocates a struct, and puts its pointer or null into a local.
    Allocate {
        local: u32,
        structure: Name,
        next: u32,
    },
    /// Frees a struct.
    Free {
        pointer: Expression,
        structure: Name,
        place: Place,
        next: u32,
    },
    /// Puts a pointer with a greater offset into a local.
    Offset {
        local: u32,
        pointer: Expression,
        by: Expression,
        place: Place,
        next: u32,
    },
    /// Reads an element of an array of `int` into a local.
    LoadAt {
        local: u32,
        pointer: Expression,
        index: Expression,
        place: Place,
        next: u32,
    },
    /// Writes an element of an array of `int`.
    StoreAt {
        pointer: Expression,
        index: Expression,
        value: Expression,
        place: Place,
        next: u32,
    },
    /// Allocates an array of `int`, and puts its pointer or null into a local.
    AllocateInts {
        local: u32,
        length: Expression,
        place: Place,
        next: u32,
    },
    /// Frees an array of `int`.
    FreeInts {
        pointer: Expression,
        place: Place,
        next: u32,
    },
    /// Calls the function of a name; a result that no local wants is forgotten.
    Call {
        target: Option<u32>,
        function: Name,
        arguments: Sequence<Expression>,
        place: Place,
        next: u32,
    },
    /// Calls the function that a pointer points to, which must have the signature.
    CallPointer {
        target: Option<u32>,
        pointer: Expression,
        signature: Signature,
        arguments: Sequence<Expression>,
        place: Place,
        next: u32,
    },
    /// Goes on at one of two steps.
    If {
        comparison: Comparison,
        left: Expression,
        right: Expression,
        so: u32,
        otherwise: u32,
    },
    /// Leaves the body, with a value where there is one.
    Return {
        value: Option<Expression>,
    },
}

/// A function with its body: its first locals are the parameters, its first step is number 0, and
/// `closing` is the closing brace.
#[derive(Debug, Drop)]
pub struct Function {
    pub identity: Name,
    pub signature: Signature,
    pub locals: Sequence<Scalar>,
    pub steps: Sequence<CoreStep>,
    pub closing: Place,
}

/// A struct's body: the types of its fields in order.
#[derive(Debug, Drop)]
pub struct StructBody {
    pub identity: Name,
    pub fields: Sequence<Scalar>,
}

/// A unit as a C compiler reads it: the table of its names, its functions, its structs, and which of
/// the functions is main.
///
/// The text of a name is the path of the file, `#`, and the name.
#[derive(Debug, Drop)]
pub struct Unit {
    pub names: Sequence<Text>,
    pub functions: Sequence<Function>,
    pub structs: Sequence<StructBody>,
    pub main: u32,
}
