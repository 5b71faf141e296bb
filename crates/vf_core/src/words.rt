//! Names, types and operators.

use vf_base::{IntType, Sequence};

/// What names a function, a function type or a struct: its number in the unit's table of names.
#[derive(Clone, Copy, Debug, PartialEq, Eq)]
pub struct Name {
    pub number: u32,
}

/// The types that locals, fields, parameters and results have (C11 6.2.5); `Void` is a result's alone.
#[derive(Clone, Copy, Debug, PartialEq, Eq)]
pub enum Scalar {
    Void,
    Integer(IntType),
    PointerToVoid,
    PointerToInt,
    PointerToStruct(Name),
    PointerToFunction(Name),
}

/// The arithmetic operators (C11 6.5.5, 6.5.6).
#[derive(Clone, Copy, Debug, PartialEq, Eq)]
pub enum Operator {
    Add,
    Subtract,
    Multiply,
    Divide,
    Remainder,
}

/// The comparisons (C11 6.5.8, 6.5.9).
#[derive(Clone, Copy, Debug, PartialEq, Eq)]
pub enum Comparison {
    Equal,
    NotEqual,
    Less,
    LessEqual,
    Greater,
    GreaterEqual,
}

/// A field: its struct, and its place in the struct's body, counted from 0.
#[derive(Clone, Copy, Debug, PartialEq, Eq)]
pub struct Field {
    pub structure: Name,
    pub index: u32,
}

/// The result and the parameters of a function.
#[derive(Debug, Drop)]
pub struct Signature {
    pub gives: Scalar,
    pub parameters: Sequence<Scalar>,
}

/// The functions that programs call and no program has a body of.
#[derive(Clone, Copy, Debug, PartialEq, Eq)]
pub enum PreludeFunction {
    Abort,
    PutChar,
    PrintInt,
    ThreadStart,
    ThreadStartJoinable,
    ThreadJoin,
    CreateMutex,
    MutexAcquire,
    MutexRelease,
    MutexDispose,
}
