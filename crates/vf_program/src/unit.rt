//! Units as C compilers read them.

use vf_base::{Sequence, Text};
use vf_core::{Function, StructBody};

/// A unit as a C compiler reads it, in the core of whole programs: its table of names, its functions that have bodies,
/// and its structs that have fields.
#[derive(Debug, Drop)]
pub struct PlainUnit {
    pub names: Sequence<Text>,
    pub functions: Sequence<Function>,
    pub structs: Sequence<StructBody>,
}
