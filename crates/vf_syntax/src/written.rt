//! Names and types as they are written.

use vf_base::{Place, Text};

/// A name, and its place (C11 6.4.2).
#[derive(Debug, Drop)]
pub struct Name {
    pub text: Text,
    pub place: Place,
}

/// The word `signed` or `unsigned`.
#[derive(Clone, Copy, Debug, PartialEq, Eq)]
pub enum Sign {
    Signed,
    Unsigned,
}

/// The words of an integer type behind its sign.
#[derive(Clone, Copy, Debug, PartialEq, Eq)]
pub enum Width {
    /// `char`
    Char,
    /// `short`
    Short,
    /// `short int`
    ShortInt,
    /// `int`
    Int,
    /// `long`
    Long,
    /// `long int`
    LongInt,
    /// `long long`
    LongLong,
    /// `long long int`
    LongLongInt,
}

/// The words of an integer type (C11 6.7.2).
#[derive(Clone, Copy, Debug, PartialEq, Eq)]
pub enum IntegerWords {
    /// `signed` or `unsigned` alone, which is of the width of `int`.
    Sign(Sign),
    /// A width alone, which is signed.
    Width(Width),
    /// Both.
    Both(Sign, Width),
}

/// A type as it is written, and the place of its first token.
#[derive(Debug, Drop)]
pub struct CType {
    pub place: Place,
    pub form: TypeForm,
}

/// The forms of types (C11 6.7.2 and 6.7.6.1).
#[derive(Debug, Drop)]
pub enum TypeForm {
    /// An integer type.
    Integer(IntegerWords),
    /// `bool`
    Bool,
    /// `void *`
    VoidPointer,
    /// `int *`
    IntPointer,
    /// `struct S *`
    StructPointer(Name),
    /// A pointer to a function type, by the name of that type, which stands at the type's place.
    NamedPointer(Text),
}

/// What a function returns.
#[derive(Debug, Drop)]
pub enum ResultType {
    /// `void`, and its place.
    Void(Place),
    /// A type.
    Value(CType),
}
