//! What chunks and cells are of.

use crate::pattern::Argument;
use vf_base::{IntType, Sequence, Text};
use vf_formula::Term;

/// What a chunk is of. Structs, predicates and families go by their identities.
#[derive(Drop)]
pub enum Head {
    /// The block of a struct, `malloc_block_S`.
    Block(Text),
    /// A predicate.
    Predicate(Text),
    /// A family at an index.
    Family(Text, Argument),
    /// A predicate constructor at its first arguments.
    Constructor(Text, Sequence<Argument>),
    /// A predicate that a value of ghost text is.
    Value(Term),
}

/// The field that a cell is of: the identity of its struct, its place in the struct's body, counted from 0, and its
/// type where that is an integer type.
#[derive(Drop)]
pub struct CellField {
    pub structure: Text,
    pub index: usize,
    pub integer: Option<IntType>,
}
