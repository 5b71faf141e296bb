//! Declarations at file level.

use crate::ctype::CType;
use crate::locals::Locals;
use vf_base::{NumberList, Sequence};
use vf_names::Names;
use vf_sorts::{Sort, SortList};

/// What a name of file level means.
#[derive(Clone, Copy, Debug, PartialEq, Eq)]
pub enum Meaning {
    /// A function, by its number.
    Function(usize),
    /// A function type, by its number.
    FunctionType(usize),
    /// Something that annotations alone may name, by its number.
    Ghost(usize),
}

/// What a name of file level means, and the files in which it is declared.
#[derive(Drop)]
pub struct Declaration {
    pub meaning: Meaning,
    pub files: NumberList,
}

/// What a function gives, and what it takes.
#[derive(Drop)]
pub struct Signature {
    pub result: CType,
    pub parameters: Sequence<CType>,
}

/// The fields of a struct, and the file in which they stand: names, and their types in the same order.
#[derive(Drop)]
pub struct Fields {
    pub file: u32,
    pub names: Names,
    pub types: Sequence<CType>,
}

/// A struct: the files in which it is declared, its fields where these are declared, and whether it is declared
/// without them.
#[derive(Drop)]
pub struct Structure {
    pub files: NumberList,
    pub fields: Option<Fields>,
    pub is_opaque: bool,
}

/// What a function is declared with so far: the locals behind its prototype, where it has one, which are its
/// parameters and the names of its precondition; and whether it has a body.
#[derive(Drop)]
pub struct Sides {
    pub prototype: Option<Locals>,
    pub is_defined: bool,
}

/// What a predicate, a lemma or a family is declared with so far: the locals behind its declaration without a body,
/// where it has one, which are its parameters and for a lemma the names of its precondition; whether it has a body; and
/// the numbers of the functions for which a family has one.
#[derive(Drop)]
pub struct GhostSides {
    pub prototype: Option<Locals>,
    pub is_defined: bool,
    pub functions: NumberList,
}

/// What annotations declare at file level.
#[derive(Drop)]
pub enum GhostDeclaration {
    /// A datatype, by its number among the datatypes of the unit.
    Datatype(usize),
    /// A constructor of a datatype.
    Constructor(Constructor),
    /// A fixpoint.
    Fixpoint(Fixpoint),
    /// A predicate, by the sorts of its arguments.
    Predicate(SortList),
    /// A family of predicates.
    Family(Family),
    /// A predicate constructor.
    PredicateConstructor(PredicateConstructor),
    /// A lemma.
    Lemma(Lemma),
}

/// A datatype: how many type parameters it has, and its constructors in order, by their numbers among the ghost
/// declarations.
#[derive(Drop)]
pub struct Datatype {
    pub parameters: usize,
    pub constructors: NumberList,
}

/// A constructor: the number of its datatype, and the sorts of its arguments.
#[derive(Drop)]
pub struct Constructor {
    pub datatype: usize,
    pub arguments: SortList,
}

/// A fixpoint: how many type parameters it has, and the sorts of its arguments and of its result.
#[derive(Drop)]
pub struct Fixpoint {
    pub parameters: usize,
    pub arguments: SortList,
    pub result: Sort,
}

/// A family of predicates: the sorts of its index and of its arguments.
#[derive(Drop)]
pub struct Family {
    pub index: Sort,
    pub arguments: SortList,
}

/// A predicate constructor: the sorts of what it is applied to, and of the arguments of the predicate that it makes.
#[derive(Drop)]
pub struct PredicateConstructor {
    pub first: SortList,
    pub second: SortList,
}

/// A lemma: how many type parameters it has, and the sorts of its arguments.
#[derive(Drop)]
pub struct Lemma {
    pub parameters: usize,
    pub arguments: SortList,
}
