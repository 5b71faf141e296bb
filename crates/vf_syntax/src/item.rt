//! Items of a file, and units.

use crate::assertion::Assertion;
use crate::contract::{Claim, Contract};
use crate::ghost_command::GhostCommandList;
use crate::ghost_expr::GhostExpr;
use crate::pattern::CasePattern;
use crate::sort::Sort;
use crate::stmt::StmtList;
use crate::written::{CType, Name, ResultType};
use vf_base::{NumberList, Place, Sequence};

/// A type and a name: a parameter of a function, or a field of a struct.
#[derive(Drop)]
pub struct Typed {
    pub written: CType,
    pub name: Name,
}

/// The parameters between the parentheses of a function.
#[derive(Drop)]
pub enum Parameters {
    /// `void`
    Void,
    /// These, which may be none.
    Listed(Sequence<Typed>),
}

/// `result name(parameters)`
#[derive(Drop)]
pub struct Signature {
    pub result: ResultType,
    pub name: Name,
    pub parameters: Parameters,
}

/// The body of a function: its statements, and the places of its `{` and `}`.
#[derive(Drop)]
pub struct Body {
    pub place: Place,
    pub statements: StmtList,
    pub last: Place,
}

/// An item of real text (C11 6.9).
#[derive(Drop)]
pub enum Item {
    /// `struct S;`, and the place of its first word.
    Opaque(Place, Name),
    /// `struct S { .. };`, and the place of its first word.
    Struct(Place, Name, Sequence<Typed>),
    /// A function type, `typedef result name(..);`, its contract, and the place of its first word.
    FunctionType(Place, Signature, Option<Contract>),
    /// A function without a body, with its claim and its contract.
    Prototype(Signature, Option<Claim>, Option<Contract>),
    /// A function with its body, its claim and its contract.
    Function(Signature, Option<Claim>, Option<Contract>, Body),
    /// An item of ghost text.
    Ghost(GhostItem),
}

/// A ghost parameter, and whether a `;` stands before it in place of a `,`.
#[derive(Drop)]
pub struct GhostParameter {
    pub after_semicolon: bool,
    pub sort: Sort,
    pub name: Name,
}

/// A constructor of a datatype, with the sorts of its arguments where there are parentheses.
#[derive(Drop)]
pub struct Constructor {
    pub name: Name,
    pub arguments: Option<Sequence<ConstructorArgument>>,
}

/// The sort of a constructor's argument, with its name if it has one.
#[derive(Drop)]
pub struct ConstructorArgument {
    pub sort: Sort,
    pub name: Option<Name>,
}

/// What a fixpoint gives.
#[derive(Drop)]
pub enum FixpointBody {
    /// `return e;`
    Value(GhostExpr),
    /// `switch (x) { .. }`
    Switch(Name, Sequence<FixpointCase>),
}

/// `case pattern: return e;`, and the place of its `case`.
#[derive(Drop)]
pub struct FixpointCase {
    pub place: Place,
    pub pattern: CasePattern,
    pub value: GhostExpr,
}

/// The body of a lemma: its commands, and the places of its `{` and `}`.
#[derive(Drop)]
pub struct GhostBody {
    pub place: Place,
    pub commands: GhostCommandList,
    pub last: Place,
}

/// An item of ghost text, and the place of its first word.
#[derive(Drop)]
pub struct GhostItem {
    pub place: Place,
    pub form: GhostForm,
}

/// The forms of ghost items. Type parameters stand between `<` and `>`, where there are any.
#[derive(Drop)]
pub enum GhostForm {
    /// A datatype: its name, type parameters, whether a `|` stands before the first constructor, and the constructors.
    Inductive(Name, Sequence<Name>, bool, Sequence<Constructor>),
    /// A fixpoint: the sort of its result, its name, type parameters, parameters and body.
    Fixpoint(Sort, Name, Sequence<Name>, Sequence<GhostParameter>, FixpointBody),
    /// A predicate without a body.
    Predicate(Name, Sequence<GhostParameter>),
    /// A predicate with its body.
    PredicateBody(Name, Sequence<GhostParameter>, Assertion),
    /// A family of predicates: its name, index and parameters.
    Family(Name, GhostParameter, Sequence<GhostParameter>),
    /// A body of a family for a function: the family, the function, the parameters and the body.
    Instance(Name, Name, Sequence<GhostParameter>, Assertion),
    /// A predicate constructor: its name, first and second parameters, and its body.
    PredicateConstructor(Name, Sequence<GhostParameter>, Sequence<GhostParameter>, Assertion),
    /// A lemma without a body: its name, type parameters, parameters and contract.
    LemmaPrototype(Name, Sequence<Name>, Sequence<GhostParameter>, Contract),
    /// A lemma with its body.
    Lemma(Name, Sequence<Name>, Sequence<GhostParameter>, Option<Contract>, GhostBody),
}

/// A file with what it includes, and the numbers of its headers.
#[derive(Drop)]
pub struct Unit {
    pub items: Sequence<Item>,
    pub headers: NumberList,
}
