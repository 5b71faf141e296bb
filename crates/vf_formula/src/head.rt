//! What stands above the parts of a term.

ghost use Rattle.std.specs.Prelude.{◌≡◌, ℤ, pos, map, IfOk};
ghost use Rattle.std.specs.Ordering.{int_cmp};
ghost use Rattle.std.specs.Cmp.Lexicographic.{slice_cmp};
ghost use Rattle.vf_closure.specs.Terms.{kind_of};
ghost use Rattle.vf_core.specs.Shown.{operator_of, comparison_of};
ghost use Rattle.vf_normal.specs.Order.{symbol_numbers, truth_number, operator_number, comparison_number, name_numbers, variant, compare_heads, kind_number};
ghost use Rattle.vf_formula.specs.Heads.{shown_kind, shown_name, shown_head};

use crate::fraction::Dyadic;
use std::cmp::Ordering;
use vf_base::{Memory, Sequence, Text};
use vf_core::{Comparison, Operator};

/// An integer term has a number for its value; the others have values of every other sort.
#[derive(Clone, Copy, Debug)]
pub enum Kind {
    Integer,
    Other,
}

/// What a symbol stands for: a name by its number, or one of the three names that contracts have.
#[derive(Clone, Copy, Debug)]
pub enum Name {
    Numbered(u64),
    Result,
    This,
    CurrentThread,
}

/// What stands above the parts of a term, in the order in which the atoms of a sum stand.
#[derive(Debug, Drop)]
pub enum Head {
    /// A symbol, which has no parts.
    Symbol(Kind, Name),
    /// A whole number.
    Number(i128),
    /// A truth value.
    Truth(bool),
    /// The null pointer.
    Null,
    /// A function, by its identity.
    Function(Text),
    /// A constructor of a datatype at its arguments.
    Constructor(Text),
    /// A fixpoint at its arguments.
    Fixpoint(Kind, Text),
    /// Whether the part is a function that claims the function type.
    Claims(Text),
    /// A predicate, or a constructor of predicates at its first arguments.
    Predicate(Text),
    /// A fraction times the fractions that are its parts.
    Share(Dyadic),
    /// The parts times these factors, added up.
    Sum(Sequence<i128>),
    /// A sum and a number.
    Plus,
    /// An operation that is no sum, or whose sum is too large.
    Arithmetic(Operator),
    Compare(Comparison),
    Not,
    And,
    Or,
    /// A conditional of two terms of a kind.
    Choose(Kind),
    /// A pointer and an offset.
    PointerSum,
}

impl Kind {
    /// The order of kinds: integer terms come first.
    fn place(self) -> u8
        ensures { result ≡ kind_number (shown_kind self) }
    {
        match self {
            Kind::Integer => 0,
            Kind::Other => 1,
        }
    }
}

impl Name {
    /// The order of names: by number, and the names of contracts after these.
    pub fn compare(self, other: Name) -> Ordering
        ensures { result ≡ slice_cmp int_cmp (symbol_numbers (shown_name self)) (symbol_numbers (shown_name other)) }
    {
        match self {
            Name::Numbered(i) => match other {
                Name::Numbered(j) => i.cmp(&j),
                _ => Ordering::Less,
            },
            Name::Result => match other {
                Name::Numbered(_) => Ordering::Greater,
                Name::Result => Ordering::Equal,
                _ => Ordering::Less,
            },
            Name::This => match other {
                Name::This => Ordering::Equal,
                Name::CurrentThread => Ordering::Less,
                _ => Ordering::Greater,
            },
            Name::CurrentThread => match other {
                Name::CurrentThread => Ordering::Equal,
                _ => Ordering::Greater,
            },
        }
    }
}

/// The place of an operator among the operators.
fn operator_place(operator: Operator) -> i128
    ensures { result ≡ operator_number (operator_of operator) }
{
    match operator {
        Operator::Add => 0,
        Operator::Subtract => 1,
        Operator::Multiply => 2,
        Operator::Divide => 3,
        Operator::Remainder => 4,
    }
}

/// The place of a comparison among the comparisons.
fn comparison_place(comparison: Comparison) -> i128
    ensures { result ≡ comparison_number (comparison_of comparison) }
{
    match comparison {
        Comparison::Equal => 0,
        Comparison::NotEqual => 1,
        Comparison::Less => 2,
        Comparison::LessEqual => 3,
        Comparison::Greater => 4,
        Comparison::GreaterEqual => 5,
    }
}

/// The place of a truth value: false stands before true.
fn truth_place(truth: bool) -> i128
    ensures { result ≡ truth_number truth }
{
    if truth { 1 } else { 0 }
}

/// The order of texts, byte by byte.
#[tactic(auto, using(crate::proofs::Comparing::names_compared))]
fn compare_texts(x: &Text, y: &Text) -> Ordering
    ensures { result ≡ slice_cmp int_cmp (map pos x.now) (map pos y.now) }
{
    x.as_bytes().cmp(y.as_bytes())
}

impl Head {
    /// The same head again.
    pub fn copy(&self) -> Result<Head, Memory>
        ensures { IfOk result (λ h. h ≡ self.now) }
    {
        match self {
            Head::Symbol(kind, name) => Ok(Head::Symbol(*kind, *name)),
            Head::Number(z) => Ok(Head::Number(*z)),
            Head::Truth(b) => Ok(Head::Truth(*b)),
            Head::Null => Ok(Head::Null),
            Head::Function(x) => Ok(Head::Function(x.copy()?)),
            Head::Constructor(x) => Ok(Head::Constructor(x.copy()?)),
            Head::Fixpoint(kind, x) => Ok(Head::Fixpoint(*kind, x.copy()?)),
            Head::Claims(x) => Ok(Head::Claims(x.copy()?)),
            Head::Predicate(x) => Ok(Head::Predicate(x.copy()?)),
            Head::Share(x) => Ok(Head::Share(*x)),
            Head::Sum(factors) => Ok(Head::Sum(factors.copy()?)),
            Head::Plus => Ok(Head::Plus),
            Head::Arithmetic(operator) => Ok(Head::Arithmetic(*operator)),
            Head::Compare(comparison) => Ok(Head::Compare(*comparison)),
            Head::Not => Ok(Head::Not),
            Head::And => Ok(Head::And),
            Head::Or => Ok(Head::Or),
            Head::Choose(kind) => Ok(Head::Choose(*kind)),
            Head::PointerSum => Ok(Head::PointerSum),
        }
    }

    /// The place of the head's variant among all variants.
    fn place(&self) -> u8
        ensures { result ≡ variant (shown_head self.now) }
    {
        match self {
            Head::Symbol(_, _) => 0,
            Head::Number(_) => 1,
            Head::Truth(_) => 2,
            Head::Null => 3,
            Head::Function(_) => 4,
            Head::Constructor(_) => 5,
            Head::Fixpoint(_, _) => 6,
            Head::Claims(_) => 7,
            Head::Predicate(_) => 8,
            Head::Share(_) => 9,
            Head::Sum(_) => 10,
            Head::Plus => 11,
            Head::Arithmetic(_) => 12,
            Head::Compare(_) => 13,
            Head::Not => 14,
            Head::And => 15,
            Head::Or => 16,
            Head::Choose(_) => 17,
            Head::PointerSum => 18,
        }
    }

    /// The order of the names or numbers of two heads of one variant.
    fn compare_names(&self, other: &Head) -> Ordering
        requires { variant (shown_head self.now) ≡ variant (shown_head other.now) }
        ensures { result ≡ slice_cmp int_cmp (name_numbers (shown_head self.now)) (name_numbers (shown_head other.now)) }
    {
        match self {
            Head::Symbol(_, x) => match other {
                Head::Symbol(_, y) => x.compare(*y),
                _ => Ordering::Equal,
            },
            Head::Number(y) => match other {
                Head::Number(z) => y.cmp(z),
                _ => Ordering::Equal,
            },
            Head::Truth(a) => match other {
                Head::Truth(b) => truth_place(*a).cmp(&truth_place(*b)),
                _ => Ordering::Equal,
            },
            Head::Function(x) => match other {
                Head::Function(y) => compare_texts(x, y),
                _ => Ordering::Equal,
            },
            Head::Constructor(x) => match other {
                Head::Constructor(y) => compare_texts(x, y),
                _ => Ordering::Equal,
            },
            Head::Fixpoint(_, x) => match other {
                Head::Fixpoint(_, y) => compare_texts(x, y),
                _ => Ordering::Equal,
            },
            Head::Claims(x) => match other {
                Head::Claims(y) => compare_texts(x, y),
                _ => Ordering::Equal,
            },
            Head::Predicate(x) => match other {
                Head::Predicate(y) => compare_texts(x, y),
                _ => Ordering::Equal,
            },
            Head::Share(x) => match other {
                Head::Share(y) => x.compare(*y),
                _ => Ordering::Equal,
            },
            Head::Sum(factors) => match other {
                Head::Sum(others) => factors.as_slice().cmp(others.as_slice()),
                _ => Ordering::Equal,
            },
            Head::Arithmetic(x) => match other {
                Head::Arithmetic(y) => operator_place(*x).cmp(&operator_place(*y)),
                _ => Ordering::Equal,
            },
            Head::Compare(x) => match other {
                Head::Compare(y) => comparison_place(*x).cmp(&comparison_place(*y)),
                _ => Ordering::Equal,
            },
            _ => Ordering::Equal,
        }
    }

    /// The kind of the terms with the head.
    pub fn kind(&self) -> Kind
        ensures { shown_kind result ≡ kind_of (shown_head self.now) }
    {
        match self {
            Head::Symbol(kind, _) => *kind,
            Head::Number(_) => Kind::Integer,
            Head::Fixpoint(kind, _) => *kind,
            Head::Sum(_) => Kind::Integer,
            Head::Plus => Kind::Integer,
            Head::Arithmetic(_) => Kind::Integer,
            Head::Choose(kind) => *kind,
            _ => Kind::Other,
        }
    }

    /// The order of heads: by variant, then by name or number, and then by kind.
    pub fn compare(&self, other: &Head) -> Ordering
        ensures { result ≡ compare_heads (shown_head self.now) (shown_head other.now) }
    {
        match self.place().cmp(&other.place()) {
            Ordering::Equal => match self.compare_names(other) {
                Ordering::Equal => self.kind().place().cmp(&other.kind().place()),
                order => order,
            },
            order => order,
        }
    }
}
