//! What a unit's functions, structs and function types are called.

ghost use Rattle.std.specs.Prelude.{◌<◌, length};

use vf_base::{Sequence, Text};
use vf_core::Name;
use vf_declared::declaration;

/// What a unit's functions, structs and function types are called in a table of names, by their numbers in the unit, and
/// the signatures of its function types.
#[derive(Drop)]
pub struct Naming<'a> {
    /// The table.
    pub names: &'a Sequence<Text>,
    /// The names of the functions.
    pub functions: Sequence<Name>,
    /// Those of the structs.
    pub structures: Sequence<Name>,
    /// Those of the function types.
    pub function_types: Sequence<Name>,
    /// The signatures of the function types.
    pub signatures: &'a Sequence<declaration::Signature>,
    ghost few: { length names.now < 4294967296 },
}
