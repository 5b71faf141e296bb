//! C's integer types.

/// An integer type of C (C11 6.2.5), `bool` among them. `char` is signed.
///
/// The widths are 8 bits for `char`, 16 for `short`, 32 for `int`, 64 for `long` and `long long`.
#[derive(Clone, Copy, Debug, PartialEq, Eq)]
pub enum IntType {
    Bool,
    Char,
    UChar,
    Short,
    UShort,
    Int,
    UInt,
    Long,
    ULong,
    LongLong,
    ULongLong,
}
