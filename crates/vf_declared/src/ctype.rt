//! Types of C.

ghost use Rattle.std.specs.Prelude.{◌≡◌};
ghost use Rattle.vf_declared.specs.Types.{integer_number, same_integer, same_type};

use vf_base::IntType;

/// A type of C, or that of a function's name (C11 6.2.5).
#[derive(Clone, Copy, Debug, PartialEq, Eq)]
pub enum CType {
    /// `void`
    Void,
    /// An integer type, `bool` among them.
    Integer(IntType),
    /// `void *`
    VoidPointer,
    /// `int *`
    IntPointer,
    /// `struct S *`, by the number of the tag.
    StructPointer(usize),
    /// A pointer to functions of a function type, by the number of that type.
    FunctionPointer(usize),
    /// The type of a function's name, by the number of the function.
    Function(usize),
}

/// The number of an integer type, by which it is told from the others.
fn integer_number(of: IntType) -> u8
    ensures { result ≡ integer_number of }
{
    match of {
        IntType::Bool => 0,
        IntType::Char => 1,
        IntType::UChar => 2,
        IntType::Short => 3,
        IntType::UShort => 4,
        IntType::Int => 5,
        IntType::UInt => 6,
        IntType::Long => 7,
        IntType::ULong => 8,
        IntType::LongLong => 9,
        IntType::ULongLong => 10,
    }
}

/// Whether two integer types are one.
fn same_integer(first: IntType, second: IntType) -> bool
    ensures { result ≡ same_integer first second }
{
    integer_number(first) == integer_number(second)
}

impl CType {
    /// Whether two types are one.
    pub fn same(self, other: CType) -> bool
        ensures { result ≡ same_type self other }
    {
        match (self, other) {
            (CType::Void, CType::Void) => true,
            (CType::Integer(first), CType::Integer(second)) => same_integer(first, second),
            (CType::VoidPointer, CType::VoidPointer) => true,
            (CType::IntPointer, CType::IntPointer) => true,
            (CType::StructPointer(first), CType::StructPointer(second)) => first == second,
            (CType::FunctionPointer(first), CType::FunctionPointer(second)) => first == second,
            (CType::Function(first), CType::Function(second)) => first == second,
            _ => false,
        }
    }
}
