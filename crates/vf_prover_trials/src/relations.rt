//! What is said of integers and of lists of them.

use std::alloc::Global;
use vf_base::{Memory, Sequence, Text};
use vf_definitions::{Body, Case, Definitions, Fixpoint};
use vf_formula::{Head, Kind, Literal, Name, Term};

/// A side of a relation. Symbols have numbers.
#[derive(Clone, Copy)]
pub(crate) enum Side {
    /// An integer symbol.
    Integer(u64),
    Number(i128),
    /// A symbol that is a list.
    List(u64),
    /// `nil`
    Nil,
    /// `cons` of an integer symbol and a list.
    Cons(u64, u64),
    /// The length of a list.
    Length(u64),
}

/// How two sides are related.
#[derive(Clone, Copy)]
pub(crate) enum Sign {
    Equal,
    NotEqual,
    /// The first less the second is at most the number.
    AtMost(i128),
    /// The first less the second is the number.
    Difference(i128),
}

/// What is said of two sides.
#[derive(Clone, Copy)]
pub(crate) struct Relation {
    left: Side,
    sign: Sign,
    right: Side,
}

pub(crate) fn equal(left: Side, right: Side) -> Relation {
    let sign = Sign::Equal;
    Relation { left, sign, right }
}

pub(crate) fn not_equal(left: Side, right: Side) -> Relation {
    let sign = Sign::NotEqual;
    Relation { left, sign, right }
}

pub(crate) fn at_most(left: Side, right: Side, most: i128) -> Relation {
    let sign = Sign::AtMost(most);
    Relation { left, sign, right }
}

pub(crate) fn difference(left: Side, right: Side, by: i128) -> Relation {
    let sign = Sign::Difference(by);
    Relation { left, sign, right }
}

/// A symbol that is a list.
fn list(alloc: Global, number: u64) -> Term {
    Term::leaf(alloc, Head::Symbol(Kind::Other, Name::Numbered(number)))
}

/// An integer symbol.
fn integer(alloc: Global, number: u64) -> Term {
    Term::leaf(alloc, Head::Symbol(Kind::Integer, Name::Numbered(number)))
}

/// `nil`
fn nil(alloc: Global) -> Result<Term, Memory> {
    let name = Text::from_bytes(alloc, b"nil")?;
    Ok(Term::leaf(alloc, Head::Constructor(name)))
}

/// `cons(x, xs)`
fn cons(alloc: Global, x: Term, xs: Term) -> Result<Term, Memory> {
    let name = Text::from_bytes(alloc, b"cons")?;
    Term::with_two(alloc, Head::Constructor(name), x, xs)
}

/// `length(xs)`
fn length_of(alloc: Global, xs: Term) -> Result<Term, Memory> {
    let name = Text::from_bytes(alloc, b"length")?;
    Term::with_one(alloc, Head::Fixpoint(Kind::Integer, name), xs)
}

/// The term of a side.
fn term(alloc: Global, side: Side) -> Result<Term, Memory> {
    match side {
        Side::Integer(x) => Ok(integer(alloc, x)),
        Side::Number(number) => Ok(Term::of_number(alloc, number)),
        Side::List(xs) => Ok(list(alloc, xs)),
        Side::Nil => nil(alloc),
        Side::Cons(x, xs) => cons(alloc, integer(alloc, x), list(alloc, xs)),
        Side::Length(xs) => length_of(alloc, list(alloc, xs)),
    }
}

/// The literal of two terms.
fn related(left: Term, sign: Sign, right: Term) -> Literal {
    match sign {
        Sign::Equal => Literal::Equal(left, right),
        Sign::NotEqual => Literal::NotEqual(left, right),
        Sign::AtMost(most) => Literal::AtMost(left, right, most),
        Sign::Difference(by) => Literal::Difference(left, right, by),
    }
}

/// The literal of a relation.
pub(crate) fn literal(alloc: Global, relation: Relation) -> Result<Literal, Memory> {
    let left = term(alloc, relation.left)?;
    match term(alloc, relation.right) {
        Ok(right) => Ok(related(left, relation.sign, right)),
        Err(fault) => Err(fault),
    }
}

/// The literals of relations.
pub(crate) fn literals(alloc: Global, relations: &[Relation]) -> Result<Vec<Literal>, Memory> {
    let mut row = Vec::new(alloc);
    for relation in relations {
        row.push(literal(alloc, *relation)?)?;
    }
    Ok(row)
}

/// What `length` returns for `nil`.
fn of_nil(alloc: Global) -> Result<Case, Memory> {
    Ok(Case {
        constructor: Text::from_bytes(alloc, b"nil")?,
        names: 0,
        result: Term::of_number(alloc, 0),
    })
}

/// `length(t) + 1`, in the case of `cons(h, t)`.
fn one_more(alloc: Global) -> Result<Term, Memory> {
    let rest = length_of(alloc, list(alloc, 2))?;
    Term::with_two(alloc, Head::Plus, rest, Term::of_number(alloc, 1))
}

/// What `length` returns for `cons(h, t)`.
fn of_cons(alloc: Global) -> Result<Case, Memory> {
    Ok(Case {
        constructor: Text::from_bytes(alloc, b"cons")?,
        names: 2,
        result: one_more(alloc)?,
    })
}

/// Both cases.
fn cases(alloc: Global) -> Result<Sequence<Case>, Memory> {
    let mut cases = Sequence::new(alloc);
    cases.push(of_nil(alloc)?)?;
    cases.push(of_cons(alloc)?)?;
    Ok(cases)
}

/// `fixpoint int length(ilist xs) { switch (xs) { case nil: return 0; case cons(h, t): return length(t) + 1; } }`
fn length(alloc: Global) -> Result<Fixpoint, Memory> {
    Ok(Fixpoint {
        kind: Kind::Integer,
        identity: Text::from_bytes(alloc, b"length")?,
        parameters: 1,
        body: Body::Switches(0, cases(alloc)?),
    })
}

/// A unit that has the fixpoint `length`.
pub(crate) fn definitions(alloc: Global) -> Result<Definitions, Memory> {
    let mut only = Definitions::new(alloc);
    only.push(length(alloc)?)?;
    Ok(only)
}
